//! What is asked for on the command line.

use wasm_validate_files::validator::WasmFeatures;

/// How lines are printed.
#[derive(Clone, Copy)]
pub enum Form {
    /// Lines that a person reads.
    Text,
    /// A JSON object on each line.
    Json,
    /// Nothing is printed on standard output.
    Quiet,
}

/// What is asked for.
#[derive(Clone, Copy)]
pub struct Settings {
    /// The proposals that modules may use.
    pub features: WasmFeatures,
    /// Whether one validator checks all files, so that ids can be compared.
    pub is_shared: bool,
    /// How lines are printed.
    pub form: Form,
    /// Whether the items of accepted modules are printed too.
    pub shows_items: bool,
    /// Whether the bytes where a module is refused are printed too.
    pub explains: bool,
    /// Whether the last line says how many files ended in which way.
    pub summarizes: bool,
    /// Whether verdicts have colors in lines that a person reads.
    pub is_colored: bool,
}
