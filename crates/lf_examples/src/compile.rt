use crate::run::{Failing, ran, ran_failing};
use std::alloc::{AllocError, Global};
use std::test::Fail;

// The sum and the product of three literals, behind the prelude.
const SUM: &str = "void lf_1_p_init(void);
void lf_1_p_init(void) {
return;
}
int main(void) {
lf_1_p_init();
{
int64_t r1 = 0;
putchar(32);
int64_t t1 = 2;
int64_t t2 = 3;
int64_t t3 = 4;
lf_name = (unsigned char *)\"x/p1.f90\";
lf_line = 2;
int64_t t4 = lf_mul(t2, t3);
lf_name = (unsigned char *)\"x/p1.f90\";
lf_line = 2;
int64_t t5 = lf_fit(t4);
lf_name = (unsigned char *)\"x/p1.f90\";
lf_line = 2;
int64_t t6 = lf_add(t1, t5);
lf_name = (unsigned char *)\"x/p1.f90\";
lf_line = 2;
int64_t t7 = lf_fit(t6);
lf_gap(&r1, 1);
lf_int(t7);
putchar(10);
}
return 0;
}
";

// Differences associate to the left, and a product is made before them.
const DIFFERENCES: &str = "void lf_4_deep_init(void);
void lf_4_deep_init(void) {
return;
}
int main(void) {
lf_4_deep_init();
{
int64_t r1 = 0;
putchar(32);
int64_t t1 = 1;
int64_t t2 = 2;
int64_t t3 = 3;
lf_name = (unsigned char *)\"x/p1.f90\";
lf_line = 3;
int64_t t4 = lf_mul(t2, t3);
lf_name = (unsigned char *)\"x/p1.f90\";
lf_line = 3;
int64_t t5 = lf_fit(t4);
lf_name = (unsigned char *)\"x/p1.f90\";
lf_line = 3;
int64_t t6 = lf_sub(t1, t5);
lf_name = (unsigned char *)\"x/p1.f90\";
lf_line = 3;
int64_t t7 = lf_fit(t6);
int64_t t8 = 4;
lf_name = (unsigned char *)\"x/p1.f90\";
lf_line = 3;
int64_t t9 = lf_sub(t7, t8);
lf_name = (unsigned char *)\"x/p1.f90\";
lf_line = 3;
int64_t t10 = lf_fit(t9);
lf_gap(&r1, 1);
lf_int(t10);
putchar(10);
}
return 0;
}
";

// The first and the last lines of the prelude.
const HEAD: &str = "#include <stdint.h>
#include <stdio.h>
#include <stdlib.h>
static unsigned char *lf_name;
static int64_t lf_line;
static void lf_trap(int64_t k, unsigned char *s) {
int64_t i = 0;
int64_t d = 1;
";

const FOOT: &str = "static void lf_end(int64_t a) {
if (a < 0) {
lf_trap(7, (unsigned char *)\"EndOfFile\");
}
}
";

const SUMS: [(&str, &str); 2] = [
    ("program p\nprint *, 2+3*4\nend program p\n", SUM),
    (
        "\n program deep\n\tprint*,1 - 2*3-4\n\nend program",
        DIFFERENCES,
    ),
];

/// Whether a program becomes its C file behind the prelude, and nothing is told.
fn becomes(alloc: Global, source: &str, behind: &str) -> Result<bool, AllocError> {
    let left = ran(
        alloc,
        &["compile", "x/p1.f90"],
        "x/p1.f90",
        source.as_bytes(),
    )?;
    let c = left.store.file("x/p1.c").unwrap_or(b"");
    let front = c.strip_suffix(behind.as_bytes()).unwrap_or(b"");
    let is_behind = c.starts_with(HEAD.as_bytes()) && front.ends_with(FOOT.as_bytes());
    Ok(left.is(0, b"", b"") && is_behind)
}

/// The place of the first program that does not, if there is one.
fn first_without_its_c(alloc: Global) -> Result<Option<usize>, AllocError> {
    for (place, (source, behind)) in SUMS.iter().enumerate() {
        if !becomes(alloc, source, behind)? {
            return Ok(Some(place));
        }
    }
    Ok(None)
}

/// The place of the first source to which `compile p1.f90` does not answer its status and its text on `err`, or the C file
/// does not come with status 0 alone.
fn first_wrong(alloc: Global, cases: &[(&str, u8, &str)]) -> Result<Option<usize>, AllocError> {
    for (place, (source, status, told)) in cases.iter().enumerate() {
        let left = ran(alloc, &["compile", "p1.f90"], "p1.f90", source.as_bytes())?;
        let has_file = left.store.file("p1.c").is_some();
        if !left.is(*status, b"", told.as_bytes()) || has_file != (*status == 0) {
            return Ok(Some(place));
        }
    }
    Ok(None)
}

const SPELLINGS: [(&str, u8, &str); 9] = [
    ("program p\nprint *, 2+3*4\nend program p\n", 0, ""),
    ("program p\nprint *, 2147483647\nend program\n", 0, ""),
    (
        "program p_1\nprint *, 00000000000000000001\nend program p_1\n",
        0,
        "",
    ),
    ("program p\nprint *, 1\nend\n", 0, ""),
    ("PROGRAM P\nPrint *, 1_4\nEnd Program p\n", 0, ""),
    ("program p\r\nprint *, 1\r\nend program\r\n", 0, ""),
    (
        "program p; print *, 2 & ! two\n\n  & + 3; endprogram p\n",
        0,
        "",
    ),
    ("program p\nprint *, 1\ncontains\nend\n", 0, ""),
    ("! nothing\n\n", 0, ""),
];

const UNBUILT: [(&str, u8, &str); 18] = [
    (
        "program p\nprint *, 2+3*2147483648\nend\n",
        1,
        "p1.f90:2: E202\n",
    ),
    ("program p\nprint *, 1_8\nend\n", 1, "p1.f90:2: E202\n"),
    ("program p\nprint *, -1\nend\n", 1, "p1.f90:2: E202\n"),
    ("program p\nprint *, (1)\nend\n", 1, "p1.f90:2: E202\n"),
    ("program p\nprint *, 1/1\nend\n", 1, "p1.f90:2: E202\n"),
    ("program p\nprint *, x\nend\n", 1, "p1.f90:2: E202\n"),
    ("program p\nprint *, 1, 2\nend\n", 1, "p1.f90:2: E202\n"),
    ("program p\nprint *\nend\n", 1, "p1.f90:2: E202\n"),
    ("program p\nprint '(I0)', 1\nend\n", 1, "p1.f90:2: E202\n"),
    (
        "program p\n\nprint *, 1\nprint *, 2\nend\n",
        1,
        "p1.f90:4: E202\n",
    ),
    (
        "program p\nprint *, 1; print *, -2\nend\n",
        1,
        "p1.f90:2: E202\n",
    ),
    ("program p\nx = 1\nprint *, 1\nend\n", 1, "p1.f90:2: E202\n"),
    ("program p\nprint *, 1\nx = 1\nend\n", 1, "p1.f90:3: E202\n"),
    ("\nprogram p\nend program p\n", 1, "p1.f90:2: E202\n"),
    (
        "program p\ninteger :: x\nprint *, 1\nend\n",
        1,
        "p1.f90:2: E202\n",
    ),
    (
        "program p\nprint *, 1\ncontains\nsubroutine s\nend\nend\n",
        1,
        "p1.f90:4: E202\n",
    ),
    ("module m\nend module m\n", 1, "p1.f90:1: E202\n"),
    (
        "program p\nprint *, 1\nend\nmodule m\nend\n",
        1,
        "p1.f90:4: E202\n",
    ),
];

const PHASES: [(&str, u8, &str); 10] = [
    // bytes that begin no token, wherever they are, before statements in no form
    ("program _p\nprint *, 1\nend\n", 1, "p1.f90:1: E101\n"),
    (
        "print *,\nprogram p\nend program $\n",
        1,
        "p1.f90:3: E101\n",
    ),
    // statements in no form or out of place before forms that are not built
    (
        "program p\nprint *, x\nprint *,\nend\n",
        1,
        "p1.f90:3: E201\n",
    ),
    (
        "print *, 1\nprogram p\nend program (\n",
        1,
        "p1.f90:1: E203\n",
    ),
    ("program\nprint *, 1\nend\n", 1, "p1.f90:1: E201\n"),
    ("program p q\nprint *, 1\nend\n", 1, "p1.f90:1: E201\n"),
    ("program p\nprint *, 1 +\nend\n", 1, "p1.f90:2: E201\n"),
    (
        "program p\nprint *, 1\nend program q\n",
        1,
        "p1.f90:3: E205\n",
    ),
    (
        "program p\nprint *, 1\nend program p\n\nprint *, 2\n",
        1,
        "p1.f90:5: E203\n",
    ),
    ("\n\n\nprogram p\n", 1, "p1.f90:4: E204\n"),
];

/// Whether a file without units becomes the prelude alone, whose last helper begins and ends once.
fn is_prelude_alone(alloc: Global) -> Result<bool, AllocError> {
    let left = ran(alloc, &["compile", "e.f90"], "e.f90", b"")?;
    let c = left.store.file("e.c").unwrap_or(b"");
    let front = c.strip_suffix(FOOT.as_bytes()).unwrap_or(b"");
    let is_whole = front.starts_with(HEAD.as_bytes()) && front.ends_with(b"return 0;\n}\n");
    Ok(left.is(0, b"", b"") && is_whole)
}

// `print*,1`, and so many times `+1` behind it, in a program whose name has so many letters.
fn long_source(alloc: Global, ones: usize, letters: usize) -> Result<Vec<u8>, AllocError> {
    let mut source = Vec::from_slice(alloc, b"program ")?;
    for _ in 0..letters {
        source.push(b'n')?;
    }
    source.extend_from_slice(b"\nprint*,1")?;
    for _ in 0..ones {
        source.extend_from_slice(b"+1")?;
    }
    source.extend_from_slice(b"\nend program\n")?;
    Ok(source)
}

const LIMITS: [(usize, usize, u8, &str); 3] = [
    (62, 63, 0, ""),
    (63, 63, 1, "p1.f90:2: E103\n"),
    (62, 64, 1, "p1.f90:1: E105\n"),
];

/// The place of the first limit that is not told so, if there is one: 8 bytes and 62 times 2 make a line of 132.
fn first_limit_not_told(alloc: Global) -> Result<Option<usize>, AllocError> {
    for (place, (ones, letters, status, told)) in LIMITS.iter().enumerate() {
        let source = long_source(alloc, *ones, *letters)?;
        let left = ran(alloc, &["compile", "p1.f90"], "p1.f90", source.as_slice())?;
        if !left.is(*status, b"", told.as_bytes()) {
            return Ok(Some(place));
        }
    }
    Ok(None)
}

const SOURCE: &[u8] = b"program p\nprint *, 1\nend program p\n";

const USAGE: &str = "lf: usage: COMMAND [--turns=N] FILE ...\n";

const OTHER_WORDS: [(&[&str], &str); 12] = [
    (&["compile", "a.txt"], USAGE),
    (&["compile"], USAGE),
    (&[], USAGE),
    (&["p1.f90"], USAGE),
    (&["compile", "-p.f90"], USAGE),
    (&["compile", "p1.f90", "p1.f90"], USAGE),
    (&["ast"], USAGE),
    (&["ast", "p1.f90", "p1.f90"], USAGE),
    (&["verify", "p1.f90"], USAGE),
    (&["ast", "q.f90"], "lf: no such file: q.f90\n"),
    (&["compile", "q.f90"], "lf: no such file: q.f90\n"),
    (&["compile", ".f90"], "lf: no such file: .f90\n"),
];

/// The place of the first words that are not refused so, if there are such.
fn first_words_not_refused(alloc: Global) -> Result<Option<usize>, AllocError> {
    for (place, (words, told)) in OTHER_WORDS.iter().enumerate() {
        let left = ran(alloc, words, "p1.f90", SOURCE)?;
        if !left.is(2, b"", told.as_bytes()) {
            return Ok(Some(place));
        }
    }
    Ok(None)
}

/// What `compile p1.f90` answers where this call of the store fails: the read, the start, the put and the finish.
const STORE_FAULTS: [(u64, u8, &str); 5] = [
    (0, 3, "lf: read fault\n"),
    (1, 4, "lf: write fault\n"),
    (2, 4, "lf: write fault\n"),
    (3, 4, "lf: write fault\n"),
    (4, 0, ""),
];

/// The place of the first call of the store whose failure is not told so, if there is one.
fn first_fault_not_told(alloc: Global) -> Result<Option<usize>, AllocError> {
    for (place, (call, status, told)) in STORE_FAULTS.iter().enumerate() {
        let failing = Failing {
            store: Some(*call),
            out: None,
        };
        let left = ran_failing(
            alloc,
            &["compile", "p1.f90"],
            &[("p1.f90", SOURCE)],
            failing,
        )?;
        let has_file = left.store.file("p1.c").is_some();
        if !left.is(*status, b"", told.as_bytes()) || has_file != (*status == 0) {
            return Ok(Some(place));
        }
    }
    Ok(None)
}

#[test]
fn sources_become_their_c_files(rt: HostRuntime) -> Result<(), Fail> {
    assert_eq!(rt; first_without_its_c(rt.alloc())?, None);
    assert_eq!(rt; first_wrong(rt.alloc(), &SPELLINGS)?, None);
    assert!(rt; is_prelude_alone(rt.alloc())?);
    Ok(())
}

#[test]
fn sources_are_refused(rt: HostRuntime) -> Result<(), Fail> {
    assert_eq!(rt; first_wrong(rt.alloc(), &UNBUILT)?, None);
    assert_eq!(rt; first_wrong(rt.alloc(), &PHASES)?, None);
    assert_eq!(rt; first_limit_not_told(rt.alloc())?, None);
    Ok(())
}

#[test]
fn words_and_faults_of_the_store_are_told(rt: HostRuntime) -> Result<(), Fail> {
    assert_eq!(rt; first_words_not_refused(rt.alloc())?, None);
    assert_eq!(rt; first_fault_not_told(rt.alloc())?, None);
    Ok(())
}
