//! What floors make final, in every run of the model. These
//! functions do nothing: their contracts are the laws.
ghost use Rattle.std.specs.Prelude.{◌≡◌, ◌≢◌, ℕ, ◌^◌, ◌<◌, ◌≤◌, Some, None, [], ◌∷◌, ◌++◌};
ghost use Rattle.chord_caller.specs.declared.ask.Ask.{Ask};
ghost use Rattle.chord_floor.specs.Floors.{HasFloor, AreAbove, SettledFirst, executed_since, ask_executed_in};
ghost use Rattle.chord_map.specs.declared.done.Done.{Done};
ghost use Rattle.chord_map.specs.declared.reply.Reply.{Reply};
ghost use Rattle.chord_map.specs.History.{StandsIn};
ghost use Rattle.chord_model.specs.Node.{done_of};
ghost use Rattle.chord_model.specs.World.{World, WorldStep, Run, Reached};
ghost use Rattle.chord_segment.specs.Segment.{id_of};

/// A floor only rises: what the holder of an identifier has
/// for a caller, its holder has at every later time.
pub fn floors_rise()
    ensures { (earlier later : World) (x caller floor : ℕ)
        → ∥ Reached earlier ∥₁ → ∥ Run earlier later ∥₁ → earlier.nodes ≢ [] → x < 2 ^ 128
        → HasFloor earlier x caller floor → HasFloor later x caller floor }
{}

/// The history only grows, and no call at or below its caller's floor
/// at the holder of its identifier is executed from then on.
pub fn none_below()
    ensures grows { (earlier later : World) → ∥ Run earlier later ∥₁
        → later.history ≡ earlier.history ++ executed_since earlier later }
    ensures above { (earlier later : World) (x caller floor : ℕ)
        → ∥ Reached earlier ∥₁ → ∥ Run earlier later ∥₁ → earlier.nodes ≢ [] → x < 2 ^ 128
        → HasFloor earlier x caller floor → AreAbove x caller floor (executed_since earlier later) }
{}

/// A step that executes an Ask adds its call to the history, and leaves the holder of its
/// identifier at least its floor. Any other step adds nothing.
pub fn executed_raises()
    ensures raised { (old new : World) (step : WorldStep old new) (ask : Ask)
        → ∥ Reached old ∥₁ → ask_executed_in step ≡ Some ask
        → HasFloor new (id_of ask.request) ask.caller ask.floor }
    ensures added { (old new : World) (step : WorldStep old new) (ask : Ask)
        → ask_executed_in step ≡ Some ask
        → (reply : Reply) × (new.history ≡ old.history ++ done_of ask reply ∷ []) }
    ensures others { (old new : World) (step : WorldStep old new)
        → ask_executed_in step ≡ None → new.history ≡ old.history }
{
    chord_model::laws::one_holder();
}

/// Once an Ask was executed, no call of its caller for the same identifier at or below its floor
/// is executed any more: what its caller gave up acted before, or never will.
pub fn given_up_acts_before()
    ensures behind { (old new later : World) (step : WorldStep old new) (ask : Ask)
        → ∥ Reached old ∥₁ → ask_executed_in step ≡ Some ask → ∥ Run new later ∥₁
        → AreAbove (id_of ask.request) ask.caller ask.floor (executed_since new later) }
    ensures before { (old new later : World) (step : WorldStep old new) (ask : Ask) (done : Done)
        → ∥ Reached old ∥₁ → ask_executed_in step ≡ Some ask → ∥ Run new later ∥₁
        → StandsIn later.history done → done.caller ≡ ask.caller
        → id_of done.request ≡ id_of ask.request → done.number ≤ ask.floor
        → StandsIn old.history done }
{
    chord_model::laws::one_holder();
}

/// What a caller had settled at some time is not executed behind a call for the same identifier
/// that it submitted later: what it had given up then acted before, or never will.
pub fn settled_first()
    ensures { (earlier later : World) → ∥ Reached earlier ∥₁ → ∥ Run earlier later ∥₁
        → SettledFirst earlier later }
{
    chord_model::laws::one_holder();
}
