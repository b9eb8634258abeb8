//! What is printed of each kind of item.

use crate::dump::print_error;
use std::alloc::Allocator;
use std::io;
use wasm_parser::items::{
    ConstExpr, Data, DataKind, Element, ElementItems, ElementKind, Global, OperatorsReader, Table,
    TableInit,
};
use wasm_readers::{Error, Export, Import, MemoryType, RecGroup, TagType};

/// An item that can be printed.
pub trait Dump {
    /// Prints the item, which stands at this offset.
    fn dump<R: Print>(&self, rt: &R, offset: u64) -> io::Result<()>;
}

/// Prints operators, up to the first that is refused.
pub fn print_operators<R: Print>(rt: &R, operators: OperatorsReader<'_>) -> io::Result<()> {
    for operator in operators.into_iter_with_offsets() {
        match operator {
            Ok((operator, offset)) => println!(rt; "    byte {offset}: {operator:?}")?,
            Err(refusal) => print_error(rt, Error::Refused(refusal))?,
        }
    }
    Ok(())
}

fn print_expression<R: Print>(rt: &R, expression: &ConstExpr<'_>) -> io::Result<()> {
    print_operators(rt, expression.get_operators_reader())
}

impl<A: Allocator> Dump for RecGroup<A> {
    fn dump<R: Print>(&self, rt: &R, offset: u64) -> io::Result<()> {
        for ty in self.types() {
            println!(rt; "  byte {offset}: {ty}")?;
        }
        Ok(())
    }
}

impl Dump for Import<'_> {
    fn dump<R: Print>(&self, rt: &R, offset: u64) -> io::Result<()> {
        println!(rt;
            "  byte {offset}: {} {} {:?}",
            self.module, self.name, self.ty
        )
    }
}

impl Dump for u32 {
    fn dump<R: Print>(&self, rt: &R, offset: u64) -> io::Result<()> {
        println!(rt; "  byte {offset}: type {self}")
    }
}

impl Dump for Table<'_> {
    fn dump<R: Print>(&self, rt: &R, offset: u64) -> io::Result<()> {
        println!(rt; "  byte {offset}: {}", self.ty)?;
        match &self.init {
            TableInit::RefNull => Ok(()),
            TableInit::Expr(expression) => print_expression(rt, expression),
        }
    }
}

impl Dump for MemoryType {
    fn dump<R: Print>(&self, rt: &R, offset: u64) -> io::Result<()> {
        println!(rt; "  byte {offset}: {self}")
    }
}

impl Dump for TagType {
    fn dump<R: Print>(&self, rt: &R, offset: u64) -> io::Result<()> {
        println!(rt; "  byte {offset}: type {}", self.func_type_idx)
    }
}

impl Dump for Global<'_> {
    fn dump<R: Print>(&self, rt: &R, offset: u64) -> io::Result<()> {
        println!(rt; "  byte {offset}: {}", self.ty)?;
        print_expression(rt, &self.init_expr)
    }
}

impl Dump for Export<'_> {
    fn dump<R: Print>(&self, rt: &R, offset: u64) -> io::Result<()> {
        println!(rt;
            "  byte {offset}: {} {:?} {}",
            self.name, self.kind, self.index
        )
    }
}

/// Prints where an element segment goes.
fn print_kind<R: Print>(rt: &R, kind: &ElementKind<'_>, offset: u64) -> io::Result<()> {
    match kind {
        ElementKind::Passive => println!(rt; "  byte {offset}: passive"),
        ElementKind::Declared => println!(rt; "  byte {offset}: declared"),
        ElementKind::Active {
            table_index,
            offset_expr,
        } => {
            println!(rt;
                "  byte {offset}: active in table {}",
                table_index.unwrap_or(0)
            )?;
            print_expression(rt, offset_expr)
        }
    }
}

impl Dump for Element<'_> {
    fn dump<R: Print>(&self, rt: &R, offset: u64) -> io::Result<()> {
        print_kind(rt, &self.kind, offset)?;
        match &self.items {
            ElementItems::Functions(functions) => {
                for function in functions.items() {
                    println!(rt; "    function {function}")?;
                }
            }
            ElementItems::Expressions(ty, expressions) => {
                println!(rt; "    expressions of type {ty}")?;
                for expression in expressions.items() {
                    print_expression(rt, &expression)?;
                }
            }
        }
        Ok(())
    }
}

impl Dump for Data<'_> {
    fn dump<R: Print>(&self, rt: &R, offset: u64) -> io::Result<()> {
        match &self.kind {
            DataKind::Passive => println!(rt; "  byte {offset}: passive")?,
            DataKind::Active {
                memory_index,
                offset_expr,
            } => {
                println!(rt; "  byte {offset}: active in memory {memory_index}")?;
                print_expression(rt, offset_expr)?;
            }
        }
        println!(rt; "    {} bytes", self.bytes.len())
    }
}
