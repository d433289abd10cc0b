// The matrix of a sector that waits, and how a matrix is taken in.
ghost use Rattle.std.specs.Prelude.{◌≡◌, ◌≤◌, length};
ghost use Rattle.matrix_record.specs.MatrixRecord.{heard_byte_of};
ghost use Rattle.workspace.specs.Workspace.{workspace_words};
ghost use Rattle.workspace.specs.Loading.{loaded_words};
ghost use Rattle.desk.specs.Desk.{waits_at_of, waiting_at, kept};

use crate::Desk;
use crate::sector::Sector;
use matrix_record::BYTES;

impl Desk {
    pub(crate) fn waits(&self, sector: Sector) -> bool
        ensures { result ≡ waits_at_of self.now sector }
    {
        self.waits[sector.index()] > 0
    }

    // The record waits.
    pub(crate) fn keep(&mut self, sector: Sector, bytes: &[u8; BYTES])
        ensures { self.new ≡ kept self.old sector bytes.now }
    {
        let start = sector.index() * BYTES;
        self.records[start..start + BYTES].copy_from_slice(bytes);
        self.waits[sector.index()] = 1;
    }

    // The record of the sector among those of all.
    #[tactic(auto, unfolding(crate::specs::Desk::record_in))]
    pub(crate) fn waiting(&self, sector: Sector) -> &[u8; BYTES]
        ensures { result.now ≡ waiting_at self.now sector }
    {
        let (records, _) = self.records.as_chunks::<BYTES>();
        &records[sector.index()]
    }
}

// Fills the area from a record, and answers its heard byte. No array of 512 words, since a longer area may be lent: `hand_in_of` and `desk_fetch_of` speak of
// its words behind them too.
pub fn take_in(bytes: &[u8; BYTES], area: &mut [i32]) -> u8
    requires { workspace_words ≤ length area.old }
    ensures filled { area.new ≡ loaded_words bytes.now area.old }
    ensures heard { result ≡ heard_byte_of bytes.now }
{
    workspace::filling::fill(bytes, area);
    matrix_record::heard_byte(bytes)
}
