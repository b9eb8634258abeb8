//! The numbers and the memory of an interpreter that runs bodies in place.

use crate::engine::{Stopped, Store};
use std::alloc::Allocator;
use wasm_operators::{MemoryOperator, NumericOperator};

/// How many numbers have 32 bits.
const WORDS: u64 = 4_294_967_296;

/// A test as a number.
fn of_test(holds: bool) -> u64 {
    if holds { 1 } else { 0 }
}

/// What an operator on two numbers gives, if this interpreter has it. A number of 32 bits is below 2³².
fn result_of(op: NumericOperator, a: u64, b: u64) -> Option<u64> {
    match op {
        NumericOperator::I32Eq | NumericOperator::I64Eq => Some(of_test(a == b)),
        NumericOperator::I32Ne | NumericOperator::I64Ne => Some(of_test(a != b)),
        NumericOperator::I32LtU | NumericOperator::I64LtU => Some(of_test(a < b)),
        NumericOperator::I32GeU | NumericOperator::I64GeU => Some(of_test(a >= b)),
        NumericOperator::I32Add => Some(a.wrapping_add(b) % WORDS),
        NumericOperator::I32Sub => Some(a.wrapping_sub(b) % WORDS),
        NumericOperator::I32Mul => Some(a.wrapping_mul(b) % WORDS),
        NumericOperator::I64Add => Some(a.wrapping_add(b)),
        NumericOperator::I64Sub => Some(a.wrapping_sub(b)),
        NumericOperator::I64Mul => Some(a.wrapping_mul(b)),
        _ => None,
    }
}

/// An operator on one number or on two.
pub fn compute<A: Allocator>(store: &mut Store<A>, op: NumericOperator) -> Result<(), Stopped> {
    let b = store.pop()?;
    if matches!(&op, NumericOperator::I32Eqz | NumericOperator::I64Eqz) {
        return store.push(of_test(b == 0));
    }
    let a = store.pop()?;
    match result_of(op, a, b) {
        Some(result) => store.push(result),
        None => Err(Stopped::Unknown),
    }
}

/// Where an access begins to so many bytes behind an address, if they are in the memory.
fn place<A: Allocator>(
    store: &Store<A>,
    address: u64,
    offset: u64,
    size: usize,
) -> Result<usize, Stopped> {
    let start = address.saturating_add(offset);
    if start >= store.memory.len() as u64 || size > store.memory.len() - start as usize {
        return Err(Stopped::Trapped);
    }
    Ok(start as usize)
}

/// How many bytes a load or a store takes, if this interpreter has it, and whether it is a load.
fn width(op: MemoryOperator) -> Option<(usize, bool)> {
    match op {
        MemoryOperator::I32Load8U => Some((1, true)),
        MemoryOperator::I32Load => Some((4, true)),
        MemoryOperator::I64Load => Some((8, true)),
        MemoryOperator::I32Store8 => Some((1, false)),
        MemoryOperator::I32Store => Some((4, false)),
        MemoryOperator::I64Store => Some((8, false)),
        _ => None,
    }
}

/// The number in so many bytes, the lowest first.
fn number_at<A: Allocator>(store: &Store<A>, start: usize, size: usize) -> u64 {
    let mut value = 0u64;
    for i in (0..size).rev() {
        let byte = *store.memory.get(start.saturating_add(i)).unwrap_or(&0);
        value = value.wrapping_mul(256).wrapping_add(byte as u64);
    }
    value
}

/// Writes the lowest bytes of a number, so many, the lowest first.
fn write_number<A: Allocator>(store: &mut Store<A>, start: usize, size: usize, value: u64) {
    let mut left = value;
    for i in 0..size {
        if let Some(byte) = store.memory.get_mut(start.saturating_add(i)) {
            *byte = (left % 256) as u8;
        }
        left /= 256;
    }
}

/// A load of so many bytes.
fn load_number<A: Allocator>(
    store: &mut Store<A>,
    size: usize,
    offset: u64,
) -> Result<(), Stopped> {
    let address = store.pop()?;
    let start = place(store, address, offset, size)?;
    store.push(number_at(store, start, size))
}

/// A store of so many bytes.
fn store_number<A: Allocator>(
    store: &mut Store<A>,
    size: usize,
    offset: u64,
) -> Result<(), Stopped> {
    let value = store.pop()?;
    let address = store.pop()?;
    let start = place(store, address, offset, size)?;
    write_number(store, start, size, value);
    Ok(())
}

/// A load or a store.
pub fn access<A: Allocator>(
    store: &mut Store<A>,
    op: MemoryOperator,
    offset: u64,
) -> Result<(), Stopped> {
    match width(op) {
        Some((size, true)) => load_number(store, size, offset),
        Some((size, false)) => store_number(store, size, offset),
        None => Err(Stopped::Unknown),
    }
}
