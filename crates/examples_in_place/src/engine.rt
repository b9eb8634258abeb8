//! The interpreter. It runs bodies in place, as they stand in their bytes, over their side tables: a
//! branch that is taken moves the operands that its entry keeps over those that it drops, and goes on
//! where the entry says; one that isn't goes on with the next entry.
//!
//! It tests no types and no heights, since the bodies are valid. Where a table or a stack is read
//! Rattle wants to see that the item is there: the contracts of the table don't say that for the
//! operands that a run has, so each such place answers `Stopped::Stuck`, which no valid body meets.
//! What a host has to test is left: addresses, and how long a run may take.

ghost use Rattle.std.specs.Prelude.{◌≡◌, ◌++◌, ◌∷◌, [], IfOk, OnOk};

use crate::loader::{Code, Loaded};
use crate::operators::{access, compute};
use std::alloc::{AllocError, Allocator};
use wasm_operators::{
    CallOperator, ConstantOperator, ControlOperator, Operator, ParametricOperator, VariableOperator,
};
use wasm_readers::BinaryReader;
use wasm_validator_side_table::side_tables::Entry;
use wasm_validator_side_table::validator_func::read_operator;

/// Why a run stopped without a result.
#[derive(Debug, Drop)]
pub enum Stopped {
    /// Memory was refused.
    OutOfMemory,
    /// It took all the steps that it was given.
    OutOfSteps,
    /// An address is outside of the memory, or `unreachable` was reached.
    Trapped,
    /// An operator that this interpreter doesn't have.
    Unknown,
    /// An operand, a local, an entry or a function isn't there, which no valid body meets.
    Stuck,
}

impl From<AllocError> for Stopped {
    fn from(_error: AllocError) -> Stopped {
        Stopped::OutOfMemory
    }
}

/// A call that isn't over: the function, where it goes on in its code and in its table, and how many
/// values of other calls are below its locals.
#[derive(Clone, Copy)]
struct Call {
    function: usize,
    position: usize,
    entry: usize,
    base: usize,
}

/// What follows an operator.
#[derive(Clone, Copy)]
enum Next {
    Operator,
    Call(usize),
    Return,
}

/// The values of all calls, the locals of each below its operands; and the memory.
#[derive(Drop)]
pub struct Store<A: Allocator> {
    pub values: Vec<u64, A>,
    pub memory: Vec<u8, A>,
}

impl<A: Allocator> Store<A> {
    /// Puts a value on top.
    pub fn push(&mut self, value: u64) -> Result<(), Stopped>
        ensures pushed { OnOk result (self.new.values.items ≡ self.old.values.items ++ value ∷ []) }
        ensures memory { self.new.memory ≡ self.old.memory }
    {
        match self.values.push(value) {
            Ok(()) => Ok(()),
            Err(_) => Err(Stopped::OutOfMemory),
        }
    }

    /// Takes the value on top.
    pub fn pop(&mut self) -> Result<u64, Stopped>
        ensures popped { IfOk result (λ value. self.old.values.items ≡ self.new.values.items ++ value ∷ []) }
        ensures memory { self.new.memory ≡ self.old.memory }
    {
        match self.values.pop() {
            Some(value) => Ok(value),
            None => Err(Stopped::Stuck),
        }
    }

    /// Keeps so many values at the top, and drops so many below these.
    fn keep(&mut self, kept: usize, dropped: usize) -> Result<(), Stopped> {
        let count = self.values.len();
        if kept > count || dropped > count - kept {
            return Err(Stopped::Stuck);
        }
        let from = count - kept;
        self.values.copy_within(from..count, from - dropped);
        self.values.truncate(count - dropped);
        Ok(())
    }
}

/// Takes the branch of the entry that is so many further on.
fn branch<A: Allocator>(
    store: &mut Store<A>,
    call: &mut Call,
    entries: &[Entry],
    further: usize,
) -> Result<(), Stopped> {
    let Some(entry) = entries.get(call.entry.saturating_add(further)) else {
        return Err(Stopped::Stuck);
    };
    call.position = entry.target as usize;
    call.entry = entry.next as usize;
    store.keep(entry.kept as usize, entry.dropped as usize)
}

/// Takes a condition, and the branch where it is as wanted; else passes its entry.
fn branch_where<A: Allocator>(
    store: &mut Store<A>,
    call: &mut Call,
    entries: &[Entry],
    wanted: bool,
) -> Result<(), Stopped> {
    let condition = store.pop()?;
    if (condition != 0) == wanted {
        return branch(store, call, entries, 0);
    }
    call.entry = call.entry.saturating_add(1);
    Ok(())
}

/// Takes an index, and the branch to the label that it chooses of so many besides the default.
fn branch_by_index<A: Allocator>(
    store: &mut Store<A>,
    call: &mut Call,
    entries: &[Entry],
    labels: u64,
) -> Result<(), Stopped> {
    let index = store.pop()?.min(labels);
    branch(store, call, entries, index as usize)
}

/// How many labels a `br_table` has besides the default.
fn count_labels(op: &ControlOperator<'_>) -> u64 {
    match op {
        ControlOperator::BrTable { targets } => targets.targets.items().count() as u64,
        _ => 0,
    }
}

/// A branch, or an operator on blocks alone, which has nothing to do.
fn jump<A: Allocator>(
    store: &mut Store<A>,
    call: &mut Call,
    entries: &[Entry],
    op: &ControlOperator<'_>,
) -> Result<(), Stopped> {
    match op {
        ControlOperator::Br { relative_depth: _ } | ControlOperator::Else => {
            branch(store, call, entries, 0)
        }
        ControlOperator::BrIf { relative_depth: _ } => branch_where(store, call, entries, true),
        ControlOperator::If { blockty: _ } => branch_where(store, call, entries, false),
        ControlOperator::BrTable { targets: _ } => {
            branch_by_index(store, call, entries, count_labels(op))
        }
        ControlOperator::Nop
        | ControlOperator::Block { blockty: _ }
        | ControlOperator::Loop { blockty: _ }
        | ControlOperator::End => Ok(()),
        _ => Err(Stopped::Unknown),
    }
}

/// A control operator. Behind the last one of the code the call returns.
fn control<A: Allocator>(
    store: &mut Store<A>,
    call: &mut Call,
    code: &Code<'_, A>,
    op: &ControlOperator<'_>,
) -> Result<Next, Stopped> {
    match op {
        ControlOperator::Return => return Ok(Next::Return),
        ControlOperator::Unreachable => return Err(Stopped::Trapped),
        _ => jump(store, call, code.entries.as_slice(), op)?,
    }
    if call.position == code.bytes.len() {
        return Ok(Next::Return);
    }
    Ok(Next::Operator)
}

/// Gives the value of a local.
fn get_local<A: Allocator>(store: &mut Store<A>, base: usize, index: u32) -> Result<(), Stopped> {
    match store.values.get(base.saturating_add(index as usize)) {
        Some(value) => {
            let value = *value;
            store.push(value)
        }
        None => Err(Stopped::Stuck),
    }
}

/// Takes a value for a local.
fn set_local<A: Allocator>(store: &mut Store<A>, base: usize, index: u32) -> Result<(), Stopped> {
    let value = store.pop()?;
    match store.values.get_mut(base.saturating_add(index as usize)) {
        Some(local) => {
            *local = value;
            Ok(())
        }
        None => Err(Stopped::Stuck),
    }
}

/// An operator on a local.
fn local<A: Allocator>(
    store: &mut Store<A>,
    base: usize,
    op: &VariableOperator,
) -> Result<(), Stopped> {
    match op {
        VariableOperator::LocalGet { local_index } => get_local(store, base, *local_index),
        VariableOperator::LocalSet { local_index } => set_local(store, base, *local_index),
        VariableOperator::LocalTee { local_index } => {
            set_local(store, base, *local_index)?;
            get_local(store, base, *local_index)
        }
        _ => Err(Stopped::Unknown),
    }
}

/// A constant.
fn constant<A: Allocator>(store: &mut Store<A>, op: &ConstantOperator) -> Result<(), Stopped> {
    match op {
        ConstantOperator::I32Const { value } => store.push(value.cast_unsigned() as u64),
        ConstantOperator::I64Const { value } => store.push(value.cast_unsigned()),
        _ => Err(Stopped::Unknown),
    }
}

/// Takes a value for nothing.
fn drop_value<A: Allocator>(store: &mut Store<A>) -> Result<(), Stopped> {
    store.pop()?;
    Ok(())
}

/// An operator that only takes and gives values.
fn calculate<A: Allocator>(
    store: &mut Store<A>,
    base: usize,
    op: &Operator<'_>,
) -> Result<(), Stopped> {
    match op {
        Operator::Parametric(ParametricOperator::Drop) => drop_value(store),
        Operator::Variable(op) => local(store, base, op),
        Operator::Constant(op) => constant(store, op),
        Operator::Numeric(op) => compute(store, *op),
        Operator::Memory(op, arg) => access(store, *op, arg.offset),
        _ => Err(Stopped::Unknown),
    }
}

/// One operator.
fn execute<A: Allocator>(
    store: &mut Store<A>,
    call: &mut Call,
    code: &Code<'_, A>,
    op: &Operator<'_>,
) -> Result<Next, Stopped> {
    match op {
        Operator::Control(op) => control(store, call, code, op),
        Operator::Call(CallOperator::Call { function_index }) => {
            Ok(Next::Call(*function_index as usize))
        }
        other => {
            calculate(store, call.base, other)?;
            Ok(Next::Operator)
        }
    }
}

/// The next operator of a call, read where it stands.
fn step<A: Allocator>(
    store: &mut Store<A>,
    call: &mut Call,
    code: &Code<'_, A>,
) -> Result<Next, Stopped> {
    let bytes = code.bytes;
    let Some(rest) = bytes.get(call.position..) else {
        return Err(Stopped::Stuck);
    };
    let mut reader = BinaryReader::new(rest, 0);
    let Ok(op) = read_operator(&mut reader) else {
        return Err(Stopped::Stuck);
    };
    call.position = bytes.len() - reader.bytes_remaining();
    execute(store, call, code, &op)
}

/// The call of a function whose parameters are at the top.
fn enter<A: Allocator>(
    store: &mut Store<A>,
    function: usize,
    code: &Code<'_, A>,
) -> Result<Call, Stopped> {
    let count = store.values.len();
    if code.params > count {
        return Err(Stopped::Stuck);
    }
    for _ in code.params..code.locals {
        store.push(0)?;
    }
    Ok(Call {
        function,
        position: code.start,
        entry: 0,
        base: count - code.params,
    })
}

/// Ends a call: its results take the place of its locals and operands.
fn leave<A: Allocator>(
    store: &mut Store<A>,
    call: &Call,
    code: &Code<'_, A>,
) -> Result<(), Stopped> {
    let above = store.values.len().saturating_sub(call.base);
    store.keep(code.results, above.saturating_sub(code.results))
}

/// Calls this function in the place of the call that goes on behind it.
fn call_function<'a, A: Allocator>(
    loaded: &Loaded<'a, A>,
    store: &mut Store<A>,
    calls: &mut Vec<Call, A>,
    call: &mut Call,
    function: usize,
) -> Result<(), Stopped> {
    let code = loaded.code(function)?;
    if calls.push(*call).is_err() {
        return Err(Stopped::OutOfMemory);
    }
    *call = enter(store, function, code)?;
    Ok(())
}

/// Takes a step of the innermost call. False where the outermost one has ended.
fn go_on<'a, A: Allocator>(
    loaded: &Loaded<'a, A>,
    store: &mut Store<A>,
    calls: &mut Vec<Call, A>,
    call: &mut Call,
) -> Result<bool, Stopped> {
    let code = loaded.code(call.function)?;
    match step(store, call, code)? {
        Next::Operator => {}
        Next::Call(function) => call_function(loaded, store, calls, call, function)?,
        Next::Return => {
            leave(store, call, code)?;
            match calls.pop() {
                Some(caller) => *call = caller,
                None => return Ok(false),
            }
        }
    }
    Ok(true)
}

/// Runs a function whose parameters are at the top, in at most so many steps. Its results are at the
/// top then.
pub fn run_function<A: Allocator + Copy>(
    alloc: A,
    loaded: &Loaded<'_, A>,
    store: &mut Store<A>,
    function: usize,
    steps: u64,
) -> Result<(), Stopped> {
    let mut call = enter(store, function, loaded.code(function)?)?;
    let mut calls = Vec::new(alloc);
    for _ in 0..steps {
        if !go_on(loaded, store, &mut calls, &mut call)? {
            return Ok(());
        }
    }
    Err(Stopped::OutOfSteps)
}
