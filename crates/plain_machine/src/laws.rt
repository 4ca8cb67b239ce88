//! What holds of the events that the machine is asked for.

ghost use Rattle.plain_model.specs.declared.event.Event.{Event};
ghost use Rattle.plain_model.specs.Plain.{Plain};
ghost use Rattle.plain_model.specs.CanHappen.{CanHappen};
ghost use Rattle.plain_events.specs.State.{HasNumber};

/// Each event that can happen has the number that the machine asks for.
pub fn numbers_fit()
    ensures { (e : Event) (s : Plain) → CanHappen e s → HasNumber e s }
{}
