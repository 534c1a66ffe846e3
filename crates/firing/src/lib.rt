//! Firing counts of marked graphs: what a step does, and how the counts after any steps are bound to
//! the rate. Nothing here runs: each function stands for theorems, which its contract states.
#![tactic(auto)]

ghost use Rattle.std.specs.Prelude.{◌≡◌, ℕ, ◌+◌, ◌-◌, ◌*◌, ◌≤◌, false, List, [], ◌∷◌, length, replicate, ℤ};
ghost use Rattle.marked.specs.declared.place.Place.{Place};
ghost use Rattle.marked.specs.Answers.{Measured};
ghost use Rattle.marked.specs.Graphs.{Cycle, Slow, tokens_on};
ghost use Rattle.marked.specs.Limits.{Starts};
ghost use Rattle.marked.specs.Rates.{IsRate};
ghost use Rattle.firing.specs.Firings.{Firings, Hold, holding, free, step, firings, held_steps};
ghost use Rattle.firing.specs.Ring.{ring, round, hold_0};
ghost use Rattle.firing.specs.Theorems.{Alike, ByRule, Connected, FallsBehind, KeepsUp, Least, NotAhead, RatedGraph, Safe, StaysNear};

/// What steps do, in every graph.
///
/// `rule`: exactly the modules that are ready and not held fire, once each. `safe`: the tokens on a
/// place are never below 0. `least`: a free step takes each module as far as its places allow, by one
/// firing at most. `monotone`: more firings before a step never make fewer after it. `local`: what the
/// n modules of a graph do depends on no other counts. `behind`: steps of which k are free lead at
/// least as far as any k steps. `no_setback`: so a hold costs no more than the step that it falls in.
pub fn steps_keep_their_laws()
    ensures rule { (G : List Place) (h : Hold) (x : Firings) (v : ℕ) → ByRule G h x v }
    ensures safe { (G : List Place) (s : List Hold) → Safe G (firings G s) }
    ensures least { (G : List Place) (x : Firings) → Safe G x → (h : Hold) → holding h ≡ false → (v : ℕ) → Least G x v (step G h x v) }
    ensures monotone { (G : List Place) (h : Hold) (x y : Firings) → NotAhead x y → NotAhead (step G h x) (step G h y) }
    ensures local { (n : ℕ) (G : List Place) → Starts n G → (h : Hold) (x y : Firings) → Alike n x y → Alike n (step G h x) (step G h y) }
    ensures behind { (G : List Place) (r s : List Hold) → length r + held_steps s ≤ length s → NotAhead (firings G r) (firings G s) }
    ensures no_setback { (G : List Place) (s : List Hold) → NotAhead (firings G (replicate (length s - held_steps s) free)) (firings G s) }
{}

/// How the firings of every module after any steps are bound.
///
/// `rated`: the call that finds a rate answers what the bounds ask for. `lower` and `upper`: the firings
/// stay near the rate P/L. `average`: no module is far ahead of the modules of a cycle, which share
/// its tokens. `reached`: a graph whose rate is at least a/b keeps up with a/b. `missed`: a graph with
/// a cycle too slow for a/b does not, and that shows from a known step on.
pub fn firings_keep_their_bounds()
    ensures rated { (n P L k : ℕ) (G : List Place) (vs vs' : List ℤ) (cs cs' : List ℕ) → Starts n G → Measured n G P L k vs vs' cs cs' → RatedGraph n G P L }
    ensures lower { (n P L : ℕ) (G : List Place) → RatedGraph n G P L → KeepsUp n P L G }
    ensures upper { (n Q : ℕ) (G : List Place) → Connected n G Q → (P L : ℕ) → IsRate G P L → StaysNear n P L ((n - 1) * (Q + 2)) G }
    ensures average { (n Q : ℕ) (G : List Place) → Connected n G Q → (c : List ℕ) → Cycle G c → StaysNear n (tokens_on G c) (length c) ((n - 1) * (Q + 1)) G }
    ensures reached { (n P L a b : ℕ) (G : List Place) → RatedGraph n G P L → a * L ≤ P * b → KeepsUp n a b G }
    ensures missed { (n Q : ℕ) (G : List Place) → Connected n G Q → (a b : ℕ) → a ≤ b → (c : List ℕ) → Cycle G c → Slow a b G c → FallsBehind n a b (b * n * (n - 1) * (Q + 3) + 1) G }
{}

/// What the bounds ask of a graph can be had: a ring of two modules with one token has the rate 1/2,
/// and is too slow for 2/3. Its modules fire in turn, module 1 first, and a hold costs them a step.
pub fn ring_meets_the_premises()
    ensures rated { RatedGraph 2 ring 1 2 }
    ensures connected { Connected 2 ring 0 }
    ensures slow { Cycle ring round × Slow 2 3 ring round }
    ensures in_turn { (firings ring (replicate 5 free) 0 ≡ 2) × (firings ring (replicate 5 free) 1 ≡ 3) }
    ensures with_a_hold { (firings ring (free ∷ hold_0 ∷ free ∷ []) 0 ≡ 1) × (firings ring (free ∷ hold_0 ∷ free ∷ []) 1 ≡ 1) × (held_steps (free ∷ hold_0 ∷ free ∷ []) ≡ 1) }
{}
