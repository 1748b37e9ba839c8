//! Laws of the definitions: each is the contract of a function that does nothing.

ghost use Rattle.std.specs.Prelude.{◌≡◌, ◌⊎◌, [], ◌∷◌, ℕ, ◌-◌, ◌<◌, ◌^◌, List, Some, Err, length};
ghost use Rattle.lf_base.specs.declared.fault.PutFault.{PutFault};
ghost use Rattle.lf_base.specs.Near.{Agree};
ghost use Rattle.lf_base.specs.Outcome.{Location};
ghost use Rattle.c_semantics.specs.CMeaning.{CMeaning};
ghost use Rattle.lf_driver.specs.declared.command.Verb.{Verb};
ghost use Rattle.lf_driver.specs.Answers.{Answered, IsStatusBy};
ghost use Rattle.lf_driver.specs.Call.{Call, Held, IsTried, Tells, Tries};
ghost use Rattle.lf_driver.specs.OnePrint.Fortran.{FortranMeaning, IsSmall};
ghost use Rattle.lf_driver.specs.OnePrint.Lowered.{count, lowered_file};
ghost use Rattle.lf_driver.specs.OnePrint.Source.{Source, IsLocation};
ghost use Rattle.lf_driver.specs.Verdict.{Verdict};
ghost use Rattle.lf_driver.specs.Words.{words_of};

/// The C file of a program and the program agree: within stated bounds each gives the other's output, status
/// and trap, with the text that tells where it shows, and neither is ever stuck or undefined.
pub fn c_file_agrees()
    ensures { (location : Location) → IsLocation location → (source : Source) → IsSmall source.value → count source.value < 2 ^ 70 → length source.name < 2 ^ 64 → Agree (FortranMeaning location source) (CMeaning (lowered_file location source ∷ [])) }
{}

/// Where the words name one file, each status but 0 leaves the files of the store as they were.
pub fn files_stay()
    ensures { (status : ℕ) (c : Call) (verb : Verb) (file : List ℕ) → words_of c.words ≡ Some (verb, 0, file ∷ []) → Answered status c → 0 < status → c.store'.files ≡ c.store.files }
{}

/// A verdict has one status: of files whose order is wanted, 0 where they have one and 8 where they name a cycle, and
/// they have not both.
pub fn one_status()
    ensures { (v : Verdict) (s t : ℕ) → IsStatusBy v s → IsStatusBy v t → s ≡ t }
{}

/// A text that was tried on a sink that does not fail stands whole, or the sink wanted memory.
pub fn texts_stand()
    ensures { (old new : Held) (text : List ℕ) → Tries old new text → new.faults ≡ old.faults → old.faults < 2 ^ 64 - 1 → Tells old new text ⊎ IsTried (Err PutFault.Memory) old new text }
{}
