//! Laws of limits, of ordered lists and of certificates, each the contract of a function that does nothing.

ghost use Rattle.std.specs.Prelude.{◌≡◌};
ghost use Rattle.mb_base.specs.Limits.{most_faults, least_interval, most_interval, most_clients, message_limit, text_limit, batch_limit, batch_bytes_limit, log_intervals, other_limit, entry_limit, part_count};
ghost use Rattle.mb_parts.specs.CheckedCertificates.{CertificateLaws};
ghost use Rattle.mb_parts.specs.Issued.{PrefixesAreConsistent};
ghost use Rattle.mb_parts.specs.OrderedLists.{OrderedListLaws};

use crate::limits::{
    LOG_INTERVALS, MAX_BATCH_BYTES, MAX_BATCH_REQUESTS, MAX_ENTRIES, OTHER_LIMIT, PART_COUNT,
    TEXT_LIMIT,
};
use mb_base::{MESSAGE_LIMIT, Shape};

/// The constants of the code are the limits that the definitions cite, so who changes one of both alone is refused.
pub fn limits_are_those_defined()
    ensures faults { Shape.MAX_F ≡ most_faults }
    ensures short_interval { Shape.MIN_K ≡ least_interval }
    ensures long_interval { Shape.MAX_K ≡ most_interval }
    ensures clients { Shape.MAX_CLIENTS ≡ most_clients }
    ensures message { MESSAGE_LIMIT ≡ message_limit }
    ensures text { TEXT_LIMIT ≡ text_limit }
    ensures batch { MAX_BATCH_REQUESTS ≡ batch_limit }
    ensures batch_bytes { MAX_BATCH_BYTES ≡ batch_bytes_limit }
    ensures log { LOG_INTERVALS ≡ log_intervals }
    ensures others { OTHER_LIMIT ≡ other_limit }
    ensures entries { MAX_ENTRIES ≡ entry_limit }
    ensures parts { PART_COUNT ≡ part_count }
{}

/// The six numbers of a floor stand for the whole list before it.
/// A list goes on from a floor as from that list, one message at a time, and behind that list it is one ordered list.
pub fn ordered_lists_go_on_from_floors()
    ensures { OrderedListLaws }
{}

/// A certificate that was checked verifies and is issued: what is valid under one test is valid under another that its claims pass.
pub fn certificates_carry_over()
    ensures { CertificateLaws }
{}

/// Whatever hosts stamped: the ordered prefixes of it, and what was issued, agree.
pub fn prefixes_are_consistent()
    ensures { PrefixesAreConsistent }
{}
