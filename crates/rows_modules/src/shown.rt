use crate::text::push_behind;
use rows_files::Trouble;
use std::alloc::AllocError;
use wasm_validator::{CoreTypeId, TypesRef};

/// Adds the fact of this name on a module that is accepted, or that is being read.
pub fn push_shown(text: &mut String, shown: &TypesRef<'_>, name: &str) -> Result<(), Trouble> {
    text.push_str(name)?;
    let pushed = match name {
        "types" => push_types(text, shown),
        "functions" => push_functions(text, shown),
        "imports" => push_imports(text, shown),
        "exports" => push_exports(text, shown),
        "tables" => push_tables(text, shown),
        "memories" => push_memories(text, shown),
        "globals" => push_globals(text, shown),
        "tags" => push_tags(text, shown),
        "elements" => push_elements(text, shown),
        "all_types" => push_behind(text, " ", shown.type_list().len()),
        "all_groups" => push_behind(text, " ", shown.type_list().rec_group_count()),
        "next_id" => push_next(text, shown),
        _ => return Err(Trouble::Malformed("an unknown fact")),
    };
    Ok(pushed?)
}

/// What stands before an item of a list: a comma before all but the first.
fn separator(is_first: bool) -> &'static str {
    if is_first { " " } else { ", " }
}

/// Adds whether there is a type with the id that comes next after those of the list.
fn push_next(text: &mut String, shown: &TypesRef<'_>) -> Result<(), AllocError> {
    let id = CoreTypeId::from_index(shown.type_list().len() as u32);
    let found = shown.get(id).is_some();
    text.push_str(if found { " some" } else { " none" })
}

fn push_types(text: &mut String, shown: &TypesRef<'_>) -> Result<(), AllocError> {
    'types: for index in 0..shown.core_type_count_in_module() {
        push_behind(text, " ", shown.core_type_at_in_module(index).index())?;
    }
    Ok(())
}

fn push_functions(text: &mut String, shown: &TypesRef<'_>) -> Result<(), AllocError> {
    'functions: for index in 0..shown.function_count() {
        push_behind(text, " ", shown.core_function_at(index).index())?;
    }
    Ok(())
}

fn push_imports(text: &mut String, shown: &TypesRef<'_>) -> Result<(), AllocError> {
    let Some(imports) = shown.core_imports() else {
        return Ok(());
    };
    let mut is_first = true;
    'imports: for (source, name, entity) in imports {
        push_behind(text, separator(is_first), source)?;
        push_behind(text, " ", name)?;
        push_behind(text, " ", entity)?;
        is_first = false;
    }
    Ok(())
}

fn push_exports(text: &mut String, shown: &TypesRef<'_>) -> Result<(), AllocError> {
    let Some(exports) = shown.core_exports() else {
        return Ok(());
    };
    let mut is_first = true;
    'exports: for (name, entity) in exports {
        push_behind(text, separator(is_first), name)?;
        push_behind(text, " ", entity)?;
        is_first = false;
    }
    Ok(())
}

fn push_tables(text: &mut String, shown: &TypesRef<'_>) -> Result<(), AllocError> {
    'tables: for index in 0..shown.table_count() {
        push_behind(text, separator(index == 0), shown.table_at(index))?;
    }
    Ok(())
}

fn push_memories(text: &mut String, shown: &TypesRef<'_>) -> Result<(), AllocError> {
    'memories: for index in 0..shown.memory_count() {
        push_behind(text, separator(index == 0), shown.memory_at(index))?;
    }
    Ok(())
}

fn push_globals(text: &mut String, shown: &TypesRef<'_>) -> Result<(), AllocError> {
    'globals: for index in 0..shown.global_count() {
        push_behind(text, separator(index == 0), shown.global_at(index))?;
    }
    Ok(())
}

fn push_tags(text: &mut String, shown: &TypesRef<'_>) -> Result<(), AllocError> {
    'tags: for index in 0..shown.tag_count() {
        push_behind(text, " ", shown.tag_at(index).index())?;
    }
    Ok(())
}

fn push_elements(text: &mut String, shown: &TypesRef<'_>) -> Result<(), AllocError> {
    'elements: for index in 0..shown.element_count() {
        push_behind(text, separator(index == 0), shown.element_at(index))?;
    }
    Ok(())
}
