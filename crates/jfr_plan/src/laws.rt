//! A law of the commands that make one output chunk of each chunk. The function does nothing; its contract is
//! the law.
ghost use Rattle.std.specs.Prelude.{◌≡◌, ◌↔◌, ℕ, List, [], ◌∷◌, ◌++◌, map, Option, Some, true};
ghost use Rattle.jfr_base.specs.declared.flaw.Flaw.{Flaw};
ghost use Rattle.jfr_header.specs.Cuts.{cut};
ghost use Rattle.jfr_plan.specs.Accepted.{AllAccepted};
ghost use Rattle.jfr_plan.specs.Effects.{Append, Create, Finish, effects};
ghost use Rattle.jfr_plan.specs.Ends.{Fine};
ghost use Rattle.jfr_plan.specs.Makes.{making};
ghost use Rattle.jfr_plan.specs.Rules.{plan_after};

/// Such a command ends well exactly if the recording is cut into chunks without a flaw and none of them is
/// refused. Then no chunk is left out: the effects are those that create the output, append what each chunk
/// becomes, in order, and finish the output.
pub fn making_ends_well()
    ensures exactly { (output : List ℕ) (refusal : List ℕ → Option Flaw) (becomes : List ℕ → List ℕ) (x : List ℕ)
        → ((plan_after (making output refusal becomes) [] (Some x)).end ≡ Some Fine) ↔ AllAccepted refusal x }
    ensures all { (output : List ℕ) (refusal : List ℕ → Option Flaw) (becomes : List ℕ → List ℕ) (x : List ℕ)
        → (plan_after (making output refusal becomes) [] (Some x)).end ≡ Some Fine
        → effects (plan_after (making output refusal becomes) [] (Some x)).steps ≡ Create output ∷ map (λ c. Append (becomes c)) (cut x 0 true).chunks ++ Finish ∷ [] }
{}
