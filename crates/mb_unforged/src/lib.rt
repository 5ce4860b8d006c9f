//! Where nothing forged is delivered, no correct host sends anything forged. Where all that happens is made of messages of the system itself, nothing at all is
//! forged; so no event of a soak is stopped. It holds no code.
#![tactic(auto)]

ghost use Rattle.mb_unforged.specs.NoneForged.{NoneIsForged};
ghost use Rattle.mb_unforged.specs.SentUnforged.{SentIsUnforged};
ghost use Rattle.mb_unforged.specs.Soaked.{SoaksAreUnstopped};

/// Over any service, in each world that is reached, to which events lead that nothing stopped: where an event comes to a correct host and nothing stops it,
/// nothing is forged, behind the event, in whatever is read of a message that the host then sends. So it is whoever is faulty, whatever they stamp and
/// invent, and without a premise about digests.
pub fn hosts_send_nothing_forged<V>()
    ensures { SentIsUnforged V }
{}

/// Over any service, in each world that nothing stopped, where no raw bytes came in and faulty hosts stamped nothing but PREPAREs of requests, CHECKPOINTs
/// and the contents of messages that were made: whatever is read of a message that was made, neither a certificate nor a tag in it is forged. So it is
/// whoever is faulty, and without a premise about digests.
pub fn nothing_is_forged<V>()
    ensures { NoneIsForged V }
{}

/// Over any service, the events of a soak are as they are drawn, each as the world stands before it; they are those of a schedule, and none is stopped:
/// none is forged, and none is refused by the world.
pub fn drawn_events_are_not_stopped<V>()
    ensures { SoaksAreUnstopped V }
{}
