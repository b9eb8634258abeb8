//! Lists of modules, which share one space of ids.

ghost use Rattle.std.specs.Prelude.{◌≡◌, ◌++◌, IfOk, OnOk, map};
ghost use Rattle.std.specs.List.{flat_map};
ghost use Rattle.wasm_validator_handles.specs.WasmValidator.WasmValidatorTypes.ShownModules.{shown_by};
ghost use Rattle.ruthvelka_c.specs.Lists.{ReportsTell, bytes_of, answered_on, types_of, functions_of};
ghost use Rattle.ruthvelka_c.specs.Reports.{function_ids};

use crate::report::{Answer, NOT_CHECKED, Report, report_no_memory, report_of};
use std::alloc::{AllocError, Global};
use wasm_validator_handles::validator::TypesRef;

/// The bytes of one module of a list. C reads it as `struct ruthvelka_bytes`.
#[repr(C)]
#[derive(Clone, Copy)]
pub struct Bytes<'a> {
    pub bytes: &'a [u8],
}

/// The bytes of each module.
pub fn lend<'a>(alloc: Global, modules: &[Bytes<'a>]) -> Result<Vec<&'a [u8]>, AllocError>
    ensures { IfOk result (λ lent. map (λ bytes. bytes.now) lent.items ≡ map bytes_of modules.now) }
{
    let mut lent = Vec::with_capacity(alloc, modules.len())?;
    'modules: for it in modules {
        lent.push_reserved(it.bytes);
    }
    Ok(lent)
}

/// The report on the module at this place of a list.
fn report_at(answers: &[Answer], place: usize) -> Report
    ensures { answered_on answers.now place result }
{
    match answers.get(place) {
        Some(answer) => report_of(answer, 0),
        None => not_checked(),
    }
}

/// The report on a module that was not looked at.
pub fn not_checked() -> Report
    ensures verdict { result.verdict ≡ NOT_CHECKED }
    ensures message { result.message_length ≡ 0 }
{
    let mut report = report_no_memory();
    report.verdict = NOT_CHECKED;
    report
}

/// Reports on the modules of a list of so many, as far as there is room.
pub fn write_reports(answers: &[Answer], count: usize, to: &mut [Report])
    ensures { ReportsTell answers.now count to.old to.new }
{
    let most = to.len().min(count);
    'places: for place in 0..most {
        to[place] = report_at(answers, place);
    }
}

/// The ids of the types of all accepted modules, one module after another.
pub fn gather_types(alloc: Global, answers: &[Answer]) -> Result<Vec<u32>, AllocError>
    ensures { IfOk result (λ ids. ids.items ≡ flat_map types_of answers.now) }
{
    let mut ids = Vec::new(alloc);
    'answers: for answer in answers {
        if let Ok(types) = answer {
            push_types(&mut ids, &types.as_ref())?;
        }
    }
    Ok(ids)
}

fn push_types(ids: &mut Vec<u32>, types: &TypesRef<'_>) -> Result<(), AllocError>
    ensures { OnOk result (ids.new.items ≡ ids.old.items ++ (shown_by types.now).spaces.types) }
{
    'types: for index in 0..types.core_type_count_in_module() {
        ids.push(types.core_type_at_in_module(index).index() as u32)?;
    }
    Ok(())
}

/// The ids of the types of all functions of all accepted modules, one module after another.
pub fn gather_functions(alloc: Global, answers: &[Answer]) -> Result<Vec<u32>, AllocError>
    ensures { IfOk result (λ ids. ids.items ≡ flat_map functions_of answers.now) }
{
    let mut ids = Vec::new(alloc);
    'answers: for answer in answers {
        if let Ok(types) = answer {
            push_functions(&mut ids, &types.as_ref())?;
        }
    }
    Ok(ids)
}

fn push_functions(ids: &mut Vec<u32>, types: &TypesRef<'_>) -> Result<(), AllocError>
    ensures { OnOk result (ids.new.items
        ≡ ids.old.items ++ function_ids (shown_by types.now).spaces) }
{
    'functions: for index in 0..types.function_count() {
        ids.push(types.core_function_at(index).index() as u32)?;
    }
    Ok(())
}
