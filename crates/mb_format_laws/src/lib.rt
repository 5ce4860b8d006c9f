//! Laws of the byte formats, each the contract of a function that does nothing.
#![tactic(auto)]

ghost use Rattle.mb_format_laws.specs.Laws.{FieldsAreReadBack, CertificatesSayAll, MarksFollow};
ghost use Rattle.mb_format_laws.specs.Tags.{TagsSayAll};

/// A field that was put is read back, whatever stands behind it.
pub fn fields_are_read_back()
    ensures { FieldsAreReadBack }
{}

/// What a certificate covers says all of the message, up to the digest of its body: messages with the same bare bytes say the same,
/// whether each travels by itself or is shown in a VIEW_CHANGE.
pub fn certificates_say_all()
    ensures { CertificatesSayAll }
{}

/// The 32 bytes of a certificate say all as well: where two under one secret are the same, so are the host, its counter and what it said,
/// unless two different strings that are hashed for them share a digest.
pub fn tags_say_all()
    ensures { TagsSayAll }
{}

/// What a gate reads of a message follows from the bytes that its certificate covers and from its counter.
pub fn marks_follow()
    ensures { MarksFollow }
{}
