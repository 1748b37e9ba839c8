ghost use Rattle.std.specs.Prelude.{◌≡◌};

/// A rule that a source can break. The hundreds are the phases: 1 lexical, 2 syntax, 3 names, 4 types
/// and limits.
#[derive(Clone, Copy, Debug, PartialEq, Eq, PartialOrd, Ord)]
pub enum Rule {
    /// A byte begins no token.
    E101,
    /// A character constant is not closed.
    E102,
    /// A line is too long.
    E103,
    /// A statement has too many continuation lines.
    E104,
    /// A name is too long.
    E105,
    /// A `&` continues nothing, stands in the middle, or stands alone on its line.
    E106,
    /// Digits are followed at once by a letter, by `_` without 4 or 8, or by a `.` that begins no dot word.
    E107,
    /// A source is too long.
    E108,
    /// A statement is in no form.
    E201,
    /// A statement is in no form, and begins as one of the forms of Fortran that the profile leaves out.
    E202,
    /// A statement stands where it is not allowed.
    E203,
    /// A unit or construct is open at the end.
    E204,
    /// An end or part names another unit or construct.
    E205,
    /// Constructs or expressions are nested too deeply.
    E206,
    /// A used module is not there.
    E301,
    /// A use names an absent or private name.
    E302,
    /// A name is declared twice in one scope.
    E303,
    /// A name is not declared.
    E304,
    /// An ambiguous name is referenced.
    E305,
    /// A second unit has the name, or a second program is there.
    E306,
    /// There is no main program to run.
    E307,
    /// A module uses itself.
    E308,
    /// The type of a part is not the one that its place asks for.
    E401,
    /// A condition is no logical scalar.
    E402,
    /// A literal does not fit its kind.
    E403,
    /// A rank or a number of subscripts is wrong, or an array stands where none may.
    E404,
    /// A call has the wrong number of arguments.
    E405,
    /// An argument has the wrong type, kind, rank, length or value.
    E406,
    /// No specific procedure matches.
    E407,
    /// Two specific procedures of a generic are not distinguishable, or only one is a function.
    E408,
    /// What may not be changed is changed.
    E409,
    /// A do variable is changed in its loop.
    E410,
    /// An expression is not constant.
    E411,
    /// Two known shapes differ.
    E412,
    /// Two ranges of a select case overlap.
    E413,
    /// A name stands for an entity of another class, or an attribute is not allowed there.
    E414,
    /// A constant expression traps.
    E415,
    /// A limit is passed.
    E416,
    /// There is no such loop to leave or to go on with.
    E417,
}

impl Rule {
    ghost use Rattle.lf_base.specs.Rules.{number_of};

    /// The number that is printed for the rule.
    pub fn number(&self) -> u16
        ensures { result ≡ number_of self.now }
    {
        match self {
            Rule::E101 => 101,
            Rule::E102 => 102,
            Rule::E103 => 103,
            Rule::E104 => 104,
            Rule::E105 => 105,
            Rule::E106 => 106,
            Rule::E107 => 107,
            Rule::E108 => 108,
            Rule::E201 => 201,
            Rule::E202 => 202,
            Rule::E203 => 203,
            Rule::E204 => 204,
            Rule::E205 => 205,
            Rule::E206 => 206,
            Rule::E301 => 301,
            Rule::E302 => 302,
            Rule::E303 => 303,
            Rule::E304 => 304,
            Rule::E305 => 305,
            Rule::E306 => 306,
            Rule::E307 => 307,
            Rule::E308 => 308,
            Rule::E401 => 401,
            Rule::E402 => 402,
            Rule::E403 => 403,
            Rule::E404 => 404,
            Rule::E405 => 405,
            Rule::E406 => 406,
            Rule::E407 => 407,
            Rule::E408 => 408,
            Rule::E409 => 409,
            Rule::E410 => 410,
            Rule::E411 => 411,
            Rule::E412 => 412,
            Rule::E413 => 413,
            Rule::E414 => 414,
            Rule::E415 => 415,
            Rule::E416 => 416,
            Rule::E417 => 417,
        }
    }
}
