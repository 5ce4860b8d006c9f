//! Why a stamped message is refused by its certificate, its counter, or the gate of its sender.

ghost use Rattle.std.specs.Prelude.{◌≡◌};
ghost use Rattle.mb_history_laws.specs.Gates.{refusal_of};

use crate::arrival::Arrival;
use crate::state::ReplicaState;
use mb_base::{NoMemory, Ui};
use mb_gate::Offer;
use mb_msg::Outcome;
use mb_plan::inner_valid;
use mb_service::Service;
use std::alloc::Global;

/// The answer of a gate, as a refusal.
pub(crate) fn refusal_of(offer: Offer) -> Option<Outcome>
    ensures { result ≡ refusal_of offer }
{
    match offer {
        Offer::Next => None,
        Offer::Convicted { counter } => Some(Outcome::Convicted { counter }),
        Offer::Stale { next } => Some(Outcome::Stale { next }),
        Offer::Ahead { next } => Some(Outcome::Ahead { next }),
        Offer::Illegal { rule } => Some(Outcome::Illegal { rule }),
    }
}

impl<V: Service + Drop> ReplicaState<V> {
    ghost use Rattle.std.specs.Prelude.{◌≡◌, IfOk};
    ghost use Rattle.mb_parts.specs.Certificates.{inner_valid};
    ghost use Rattle.mb_msg.specs.Stamps.{bare_of};
    ghost use Rattle.mb_model.specs.Histories.{Identity, History};
    ghost use Rattle.mb_model.specs.GateChecks.{valid, is_bad_ui, is_own_future, gate_refusal, identifier_refusal};
    ghost use Rattle.mb_replica.specs.Represents.{Represents};
    ghost use Rattle.mb_replica.specs.Arrivals.{IsArrival};

    /// Why a stamped message is refused before its kind is looked at.
    #[tactic(auto, unfolding(mb_model::specs::GateChecks::identifier_refusal))]
    pub(crate) fn identifier_refusal(
        &self,
        alloc: Global,
        arrival: &Arrival,
    ) -> Result<Option<Outcome>, NoMemory>
        requires { IsArrival self.now.protocol.shape arrival.now }
        ensures { (me : Identity V) (d : History) → Represents me self.now d → IfOk result (λ o. o ≡ identifier_refusal me d arrival.now.message) }
    {
        if self.is_bad_ui(alloc, arrival)? {
            return Ok(Some(Outcome::BadUi));
        }
        if self.is_own_future(&arrival.ui) {
            return Ok(Some(Outcome::Idle));
        }
        self.gate_refusal(alloc, arrival)
    }

    /// Its certificate is not that of its bare bytes under its counter.
    fn is_bad_ui(&self, alloc: Global, arrival: &Arrival) -> Result<bool, NoMemory>
        requires { IsArrival self.now.protocol.shape arrival.now }
        ensures { (me : Identity V) (d : History) → Represents me self.now d → IfOk result (λ o. o ≡ is_bad_ui me arrival.now.message) }
    {
        let bare = arrival.bare(alloc, &self.protocol.shape)?;
        Ok(!self.protocol.usig.verify_ui(bare.as_slice(), &arrival.ui))
    }

    /// Of this host itself, with a counter that it has not reached.
    pub(crate) fn is_own_future(&self, ui: &Ui) -> bool
        ensures { (me : Identity V) (d : History) → Represents me self.now d → result ≡ is_own_future me d ui.now }
    {
        ui.host == self.protocol.host && ui.counter > self.protocol.usig.counter()
    }

    /// Why the gate of its sender refuses a message. The certificates in it are checked only where all else permits it.
    fn gate_refusal(&self, alloc: Global, arrival: &Arrival) -> Result<Option<Outcome>, NoMemory>
        requires { IsArrival self.now.protocol.shape arrival.now }
        ensures { (me : Identity V) (d : History) → Represents me self.now d → IfOk result (λ o. o ≡ gate_refusal me d arrival.now.message) }
    {
        let gate = &self.protocol.gates[usize::from(arrival.ui.host)];
        let offer = gate.judge(&arrival.mark, true);
        if offer != Offer::Next {
            return Ok(refusal_of(offer));
        }
        let inner = self.is_inner_valid(alloc, arrival)?;
        Ok(refusal_of(gate.judge(&arrival.mark, inner)))
    }

    /// The certificates in a message verify.
    fn is_inner_valid(&self, alloc: Global, arrival: &Arrival) -> Result<bool, NoMemory>
        requires { IsArrival self.now.protocol.shape arrival.now }
        ensures { (me : Identity V) (d : History) → Represents me self.now d → IfOk result (λ o. o ≡ inner_valid me.shape (valid me) (bare_of arrival.now.message)) }
    {
        inner_valid(
            alloc,
            &self.protocol.shape,
            &self.protocol.usig,
            &arrival.message,
            &arrival.body,
        )
    }
}
