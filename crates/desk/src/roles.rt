// Who calls, and the test ahead of all others.
ghost use Rattle.std.specs.Prelude.{◌≡◌, IfOk};
ghost use Rattle.refusals.specs.Outcomes.{outcome_number};
ghost use Rattle.desk.specs.Roles.{role_test, may_of, role_of};

use crate::{FITTER, OPERATOR, VIEWER};
use refusals::Refusal;

// A viewer gets the heard byte and nothing else, a fitter the result record too, and the operator may also hand in, run, begin rounds and set shares.
#[derive(Clone, Copy, Debug, PartialEq, Eq, PartialOrd, Ord)]
pub enum Role {
    Viewer,
    Fitter,
    Operator,
}

// By its number in the C interface. Any other number may nothing.
impl TryFrom<u32> for Role {
    type Error = Refusal;

    ghost try_from_gives = { λ number result. result ≡ role_of number };

    fn try_from(number: u32) -> Result<Role, Refusal> {
        match number {
            VIEWER => Ok(Role::Viewer),
            FITTER => Ok(Role::Fitter),
            OPERATOR => Ok(Role::Operator),
            _ => Err(Refusal::NotAllowed),
        }
    }
}

impl Role {
    // The test ahead of all others: the role of this number, where it may what `least` may.
    pub fn admit(number: u32, least: Role) -> Result<Role, Refusal>
        ensures number { outcome_number result ≡ role_test (may_of least number) }
        ensures same { IfOk result (λ role. Ok role ≡ role_of number) }
    {
        let role = Role::try_from(number)?;
        if role < least {
            return Err(Refusal::NotAllowed);
        }
        Ok(role)
    }
}
