//! Laws of the definitions that the contracts cite. Each function does nothing: its contract is the law.

ghost use Rattle.std.specs.Prelude.{◌≡◌, ℕ, List, [], ◌∷◌, ◌++◌};
ghost use mathlib.Core.List.{IsPrefix};
ghost use Rattle.dmatypes.specs.declared.call.Call.{Call};
ghost use Rattle.dmatypes.specs.declared.reply.Reply.{Reply};
ghost use Rattle.dmatypes.specs.History.{IsLegal};
ghost use Rattle.dmatypes.specs.Step.{IsStep, next};
ghost use Rattle.dmatypes.specs.World.{World};
ghost use Rattle.ports.specs.Cleared.{IsCleared};
ghost use Rattle.ports.specs.Lawful.{IsLawful, IsLawfulAfter};
ghost use Rattle.ports.specs.Steps.{IsLoadBy, IsRunOf, PortStep, led_to, loads_word, seen_by};

/// A step of the model leaves each lawful word lawful, but in the rows that are cleared at it.
pub fn keeps()
    ensures { (w : World) (call : Call) (reply : Reply) (device word : ℕ)
        → IsStep w call reply → IsLawful w device word → (IsCleared w call reply device → ⊥)
        → IsLawful (next w call reply) device word }
{}

/// What holds of every run of ports, passes and the desk, from the empty state: its last history is legal and begins with
/// what each of them had seen at any point. Each word that a port loaded is lawful for its device after the history of that
/// point, which the port has then seen. The points of one caller's loads are fronts of one another, in its order.
pub fn whole_run()
    ensures legal { (frames passes : ℕ) (steps : List PortStep) → IsRunOf frames passes steps
        → IsLegal frames (led_to passes steps).history }
    ensures seen { (frames passes : ℕ) (front rest : List PortStep) (caller : ℕ) → IsRunOf frames passes (front ++ rest)
        → IsPrefix (seen_by (led_to passes front) caller) (led_to passes (front ++ rest)).history }
    ensures lawful { (frames passes : ℕ) (front rest : List PortStep) (port slot word : ℕ)
        → IsRunOf frames passes (front ++ loads_word port slot word ∷ rest)
        → IsLawfulAfter frames (led_to passes front).history port word }
    ensures learnt { (frames passes : ℕ) (front rest : List PortStep) (port slot word : ℕ)
        → IsRunOf frames passes (front ++ loads_word port slot word ∷ rest)
        → seen_by (led_to passes (front ++ loads_word port slot word ∷ [])) port ≡ (led_to passes front).history }
    ensures ordered { (frames passes : ℕ) (front between rest : List PortStep) (one other : PortStep) (caller : ℕ)
        → IsLoadBy caller one → IsLoadBy caller other → IsRunOf frames passes ((front ++ one ∷ between) ++ other ∷ rest)
        → IsPrefix (led_to passes front).history (led_to passes (front ++ one ∷ between)).history }
{}
