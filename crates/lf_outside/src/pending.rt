ghost use Rattle.std.specs.Prelude.{◌≡◌, true, false, string_bytes};
ghost use Rattle.lf_outside.specs.Names.{is_own};

/// A file under a temporary name.
#[derive(Drop)]
pub(crate) struct Temporary<F: Drop> {
    pub(crate) name: String,
    pub(crate) file: F,
    pub(crate) ghost own: { is_own (string_bytes name) ≡ true },
}

/// A file that is being written, under a temporary name, and may have so many bytes at most.
#[derive(Drop)]
pub(crate) struct PendingFile<F: Drop> {
    pub(crate) name: String,
    pub(crate) temporary: Temporary<F>,
    pub(crate) written: u64,
    pub(crate) limit: u64,
    pub(crate) ghost plain: { is_own (string_bytes name) ≡ false },
}
