// Bytes copied into the log.
ghost use Rattle.std.specs.Prelude.{◌≡◌, length};

// Copies bytes to a place as long as they are. A loop and no `copy_from_slice`: bytes and place come from two pointers of a host, so that it would be
// compiled as a call of `memmove`, which nothing else in the archive needs.
pub(crate) fn put(bytes: &[u8], place: &mut [u8])
    requires { length place.old ≡ length bytes.now }
    ensures { place.new ≡ bytes.now }
{
    for i in 0..bytes.len() {
        place[i] = bytes[i];
    }
}
