//! Laws of the definitions: each is the contract of a function that does nothing.

ghost use Rattle.std.specs.Prelude.{◌≡◌, ℕ, ◌+◌, ◌≤◌, List, Bool, true, Option, None};
ghost use Rattle.lf_base.specs.Outcome.{Location, Written, Fault, Wrong, Outcome, Meaning, Any, Never, KeepsLocation, KeptLocation};
ghost use Rattle.lf_base.specs.Near.{IsNearBy, Near, Agree, IsMonotone};
ghost use Rattle.lf_base.specs.Acts.{Act, Stretch, give, iterate, outcome_of};
ghost use Rattle.lf_base.specs.Order.{Grows, Below, BelowFrom, Same};
ghost use Rattle.lf_base.specs.Monotone.{NoShorter};
ghost use Rattle.lf_base.specs.Depth.{Callee, calls, CalleeGrows, CalleeLonger};
ghost use Rattle.lf_base.specs.Loops.{with_test, counted};

/// A loop that may make more turns goes at least as far: it ends alike where it ended, and where it was
/// cut it writes at least as much. S is the state of the program, B what a loop is left with.
pub fn larger_bounds<S, B>()
    ensures { (n n' : ℕ) → n ≤ n' → (test : Act S Bool) (body : Act S (Option B)) → Grows test → Grows body → (state : S) (sofar : Written) → Below Any (λ p q. q ≡ p) Same (iterate n test body state sofar) (iterate n' test body state sofar) }
{}

/// Seven links of near meanings, one behind another, make the first and the last agree.
pub fn seven_links_agree()
    ensures { (f0 f1 f2 f3 f4 f5 f6 f7 : Meaning) → ((input : List ℕ) → IsMonotone (f0 input)) → ((input : List ℕ) → IsMonotone (f7 input)) → Near f0 f1 → Near f1 f2 → Near f2 f3 → Near f3 f4 → Near f4 f5 → Near f5 f6 → Near f6 f7 → Agree f0 f7 }
{}

/// Two near meanings agree.
pub fn one_link_agrees()
    ensures { (f c : Meaning) → ((input : List ℕ) → IsMonotone (f input)) → ((input : List ℕ) → IsMonotone (c input)) → Near f c → Agree f c }
{}

/// Two meanings are near where each goes as far as the other at all bounds that are large enough. S and T are
/// the states of their programs.
pub fn near_both_ways<S, T>()
    ensures { (k e : ℕ) (x : ℕ → ℕ → Stretch S ℕ) (y : ℕ → ℕ → Stretch T ℕ) → ((n n' d d' : ℕ) → n + k ≤ n' → d + e ≤ d' → Below Never KeepsLocation (λ a s a' s'. a' ≡ a) (x n d) (y n' d')) → ((n n' d d' : ℕ) → n + k ≤ n' → d + e ≤ d' → Below Never KeptLocation (λ a s a' s'. a' ≡ a) (y n d) (x n' d')) → IsNearBy Never k e (λ n d. outcome_of (x n d)) (λ n d. outcome_of (y n d)) }
{}

/// Two meanings are near where they are equal at all bounds, larger bounds keep their ends, and they have a
/// rule for everything that comes.
pub fn near_by_equality()
    ensures { (k e : ℕ) (f c : ℕ → ℕ → Outcome) → IsMonotone f → ((n d : ℕ) → c n d ≡ f n d) → ((n d : ℕ) (fault : Fault) → f n d ≡ Wrong fault → Never fault) → IsNearBy Never k e f c }
{}

/// Calls that may be deeper go at least as far. X is a procedure with its arguments.
pub fn deeper_calls<S, A, X>()
    ensures { (callee callee' : Callee S A X) → CalleeLonger callee callee' → CalleeGrows callee' → (d d' : ℕ) → d ≤ d' → (x : X) → NoShorter (calls callee d x) (calls callee' d' x) }
{}

/// A loop whose test stands inside its body goes with one turn more at least as far as the one that tests first,
/// where states are equal: here of one loop with the same test and body, left by the signal `out` where the test
/// fails.
pub fn test_inside<S, B>()
    ensures { (out : B) (n n' : ℕ) → n + 1 ≤ n' → (test : Act S Bool) (body : Act S (Option B)) → Grows test → Grows body → (state : S) (sofar : Written) → Below Any KeepsLocation (λ o s o' s'. s' ≡ s) (iterate n test body state sofar) (iterate n' (give true) (with_test out test body) state sofar) }
{}
