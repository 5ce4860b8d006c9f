//! Why a certificate does not check.

ghost use Rattle.std.specs.Prelude.{◌≡◌, ◌<◌};

/// What is wrong with a member.
#[derive(Clone, Copy, Debug, PartialEq, Eq)]
pub enum Why {
    /// There are not as many members as asked for.
    Few,
    /// Its host is not above the one before it, or is the primary in evidence.
    SameHost,
    /// Its tag does not verify.
    BadUi,
    /// It has no floor for the owner, or another one than the first member.
    Differs,
}

/// The first member that fails, and why. The index of `Few` is the number of members, and 255 is the NEW_VIEW in evidence.
#[derive(Clone, Copy, Debug, PartialEq, Eq)]
pub struct CertFault {
    pub index: u8,
    pub why: Why,
}

impl CertFault {
    /// The index that tells the NEW_VIEW in evidence.
    pub const NEW_VIEW: u8 = 255;

    pub(crate) fn at(index: usize, why: Why) -> CertFault
        requires { index < 256 }
        ensures { result ≡ record { index = index; why = why } }
    {
        CertFault {
            index: index as u8,
            why,
        }
    }
}
