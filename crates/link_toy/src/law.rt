//! The laws of the two languages: each is the contract of a function that does nothing.

ghost use Rattle.std.specs.Prelude.{◌≡◌, ℕ, ◌*◌, ◌≤◌, List, [], codes, true, Option, Some, None};
ghost use Rattle.lf_base.specs.Outcome.{Location, Written, written, Ended, Cut, Never, KeptLocation};
ghost use Rattle.lf_base.specs.Traps.{trap_status, trap_text};
ghost use Rattle.lf_base.specs.declared.trap.Trap.TheVariants.{IntegerOverflow};
ghost use Rattle.lf_base.specs.Near.{IsNearBy, IsMonotone};
ghost use Rattle.lf_base.specs.Acts.{Going};
ghost use Rattle.lf_base.specs.Order.{BelowFrom};
ghost use Rattle.lf_base.specs.Depth.{calls};
ghost use Rattle.link_toy.specs.Source.{Scope, Statement, Program, IsFine, is_fine, declared};
ghost use Rattle.link_toy.specs.Meaning.{Store, by_name, largest_factor, product, exec, callee, success, run};
ghost use Rattle.link_toy.specs.Target.{CStatement, CProgram, Memory, Multiplier, callee_c, run_c};
ghost use Rattle.link_toy.specs.Translation.{Layout, IsLayout, layout_of, helper_depth, translated, initial_memory};
ghost use Rattle.link_toy.specs.Relation.{Unchanged};
ghost use Rattle.link_toy.specs.Numbered.{names_of, by_number, resolve, resolved, run_numbered};
ghost use Rattle.link_toy.specs.Temporary.{widened, passed, IsNew};
ghost use Rattle.link_toy.specs.Example.{spare, layout, at_line, descends, overflows};

/// Every program whose variables are declared is near its translation, in any layout of its variables: within stated
/// bounds each ends as the other does, a location that the target tells is the source's, and neither is ever without
/// a rule.
pub fn both_ways()
    ensures { (layout : Layout) (p : Program) → IsFine p → IsLayout p.scope layout → IsNearBy Never largest_factor helper_depth (run p) (run_c (initial_memory layout) (translated layout p)) }
{}

/// Larger bounds keep an end and never shorten what is written, in either language and for every program.
pub fn larger_bounds()
    ensures source { (p : Program) → IsMonotone (run p) }
    ensures target { (start : Memory) (p : CProgram) → IsMonotone (run_c start p) }
{}

/// The helper that multiplies by a loop of additions, beside the product of the source.
pub fn helper_multiplies()
    /// At turns and depth enough it gives the product, and keeps all cells below its own objects.
    ensures enough { (bodies : ℕ → CStatement) (n d : ℕ) → largest_factor ≤ n → helper_depth ≤ d → (r u v : ℕ) (text : List ℕ) → u ≤ largest_factor → (m : Memory) (w : Written) → (m' : Memory) × Unchanged r m m' × (calls (callee_c n bodies) d (Multiplier r u v text) m w ≡ Going (u * v) m' w) }
    /// At any bounds it goes no further than the product: it gives what the product gives, ends by the trap as it
    /// does, or is cut.
    ensures every { (bodies : ℕ → CStatement) (r u v : ℕ) (here : Location) (before : Memory) (n d : ℕ) → BelowFrom Never KeptLocation (λ m s. Unchanged r before m) (λ a m a' s. (a' ≡ a) × Unchanged r before m) (calls (callee_c n bodies) d (Multiplier r u v (trap_text IntegerOverflow here))) (product {S = Store} here u v) }
{}

/// Names that are resolved to numbers before the program runs.
pub fn names_are_numbers()
    /// From every store that has the declared names, a statement does by numbers what it does by names.
    ensures same { (p : Program) → IsFine p → (n d : ℕ) (st : Statement) → is_fine p.scope st ≡ true → (s : Store) (w : Written) → names_of s ≡ declared p.scope → exec by_number p.scope n (calls (callee by_number p.scope n (resolved p).bodies) d) (resolve p.scope st) s w ≡ exec by_name p.scope n (calls (callee by_name p.scope n p.bodies) d) st s w }
    ensures near { (p : Program) → IsFine p → IsNearBy Never 0 0 (run p) (run_numbered p) }
{}

/// Assignments that go through a new variable change nothing of what a program does.
pub fn assignments_go_through()
    ensures near { (t : ℕ) (p : Program) → IsFine p → IsNew t p.scope → IsNearBy Never 0 0 (run p) (run (passed t p)) }
    ensures fine { (t : ℕ) (p : Program) → IsFine p → IsFine (passed t p) }
{}

/// The pass and the translation behind it: the bounds of links add up.
pub fn links_add_up()
    ensures { (t : ℕ) (layout : Layout) (p : Program) → IsFine p → IsNew t p.scope → IsLayout (widened t p.scope) layout → IsNearBy Never largest_factor helper_depth (run p) (run_c (initial_memory layout) (translated layout (passed t p))) }
{}

/// The premises of the laws have a model.
pub fn premises_hold()
    /// Whatever is declared has a layout.
    ensures layout { (scope : Scope) → IsLayout scope (layout_of scope) }
    ensures descends { IsFine descends }
    ensures overflows { IsFine overflows }
    ensures new { IsNew spare descends.scope }
{}

/// A program with both loops, a call in a loop, a procedure that calls itself, and products: all meanings compute it.
/// The target needs the turn in which a loop is left, and a call more for its helper.
pub fn descends_runs()
    ensures source { run descends 2 2 ≡ Ended (written (codes "5\n5\n2\n2\n5\n5\n2\n2\n") []) success None }
    ensures target { run_c (initial_memory layout) (translated layout descends) 3 3 ≡ Ended (written (codes "5\n5\n2\n2\n5\n5\n2\n2\n") []) success None }
    ensures numbered { run_numbered descends 2 2 ≡ Ended (written (codes "5\n5\n2\n2\n5\n5\n2\n2\n") []) success None }
    ensures passed { run (passed spare descends) 2 2 ≡ Ended (written (codes "5\n5\n2\n2\n5\n5\n2\n2\n") []) success None }
    /// Calls to a depth of 1 are not enough.
    ensures shallow { run descends 2 1 ≡ Cut (written [] []) }
{}

/// A program that ends by a trap: both write the same text and end with the same status, and the source alone tells
/// the location.
pub fn overflows_traps()
    ensures source { run overflows 0 0 ≡ Ended (written (codes "1\n") (codes "lf: trap IntegerOverflow at toy:2\n")) (trap_status IntegerOverflow) (Some (at_line 2)) }
    ensures target { run_c (initial_memory layout) (translated layout overflows) 0 1 ≡ Ended (written (codes "1\n") (codes "lf: trap IntegerOverflow at toy:2\n")) (trap_status IntegerOverflow) None }
{}
