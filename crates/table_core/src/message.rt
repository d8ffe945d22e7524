//! The message of a row whose cells have no fault.
ghost use Rattle.std.specs.Prelude.{◌≡◌, ◌<◌, None, length, IfOk};
ghost use Rattle.table_core.specs.Cells.{thing_cell_fault, place_cell_fault, loan_cell_fault};
ghost use Rattle.table_core.specs.Cells.{day_cell_fault, name_fault};
ghost use Rattle.table_core.specs.RowCells.{cells_of, order_of, HasValues};
ghost use Rattle.table_core.specs.TableRows.{day_at, message_by};

use crate::days::day_of;
use crate::objects::objects_in;
use crate::row_cells::RowCells;
use crate::{Column, Kind};
use codes_core::{Day, LoanCode, Name, NameFault, NoMemory, PlaceCode, ThingCode};
use posting_core::Message;
use std::alloc::Global;

/// The message of a row of this kind. Fails with `NoMemory`.
pub(crate) fn message_of(alloc: Global, cells: &RowCells, kind: Kind) -> Result<Message, NoMemory>
    requires { HasValues (order_of cells.now) (cells_of cells.now) kind }
    ensures { IfOk result
        (λ message. message ≡ message_by (order_of cells.now) (cells_of cells.now) kind) }
{
    match kind {
        Kind::Move => Ok(move_of(cells)),
        Kind::Pack => Ok(pack_of(cells)),
        Kind::Agree => agree_of(alloc, cells),
        Kind::Authorise => authorise_of(alloc, cells),
        Kind::Exit => Ok(exit_of(cells)),
        Kind::Return => Ok(return_of(cells)),
        Kind::Receive => Ok(receive_of(cells)),
        Kind::SignOff => sign_off_of(alloc, cells),
        Kind::Extend => Ok(extend_of(cells)),
    }
}

fn move_of(cells: &RowCells) -> Message
    requires { HasValues (order_of cells.now) (cells_of cells.now) Kind.Move }
    ensures { result ≡ message_by (order_of cells.now) (cells_of cells.now) Kind.Move }
{
    Message::Move {
        day: day_at(cells, Column::Day),
        thing: thing_at(cells, Column::Thing),
        place: place_at(cells, Column::Place),
    }
}

fn pack_of(cells: &RowCells) -> Message
    requires { HasValues (order_of cells.now) (cells_of cells.now) Kind.Pack }
    ensures { result ≡ message_by (order_of cells.now) (cells_of cells.now) Kind.Pack }
{
    Message::Pack {
        day: day_at(cells, Column::Day),
        thing: thing_at(cells, Column::Thing),
        container: thing_at(cells, Column::Container),
    }
}

fn agree_of(alloc: Global, cells: &RowCells) -> Result<Message, NoMemory>
    requires { HasValues (order_of cells.now) (cells_of cells.now) Kind.Agree }
    ensures { IfOk result
        (λ message. message ≡ message_by (order_of cells.now) (cells_of cells.now) Kind.Agree) }
{
    let objects = objects_in(alloc, cells.text(Column::Objects).as_bytes())?;
    Ok(Message::Agree {
        first: day_at(cells, Column::First),
        last: day_at(cells, Column::Last),
        loan: loan_at(cells),
        partner: place_at(cells, Column::Partner),
        objects,
    })
}

fn authorise_of(alloc: Global, cells: &RowCells) -> Result<Message, NoMemory>
    requires { HasValues (order_of cells.now) (cells_of cells.now) Kind.Authorise }
    ensures { IfOk result
        (λ message. message
        ≡ message_by (order_of cells.now) (cells_of cells.now) Kind.Authorise) }
{
    let name = name_at(alloc, cells)?;
    Ok(Message::Authorise {
        name,
        loan: loan_at(cells),
    })
}

fn exit_of(cells: &RowCells) -> Message
    requires { HasValues (order_of cells.now) (cells_of cells.now) Kind.Exit }
    ensures { result ≡ message_by (order_of cells.now) (cells_of cells.now) Kind.Exit }
{
    Message::Exit {
        day: day_at(cells, Column::Day),
        thing: thing_at(cells, Column::Thing),
        loan: loan_at(cells),
    }
}

fn return_of(cells: &RowCells) -> Message
    requires { HasValues (order_of cells.now) (cells_of cells.now) Kind.Return }
    ensures { result ≡ message_by (order_of cells.now) (cells_of cells.now) Kind.Return }
{
    Message::Return {
        day: day_at(cells, Column::Day),
        thing: thing_at(cells, Column::Thing),
        loan: loan_at(cells),
        place: place_at(cells, Column::Place),
    }
}

fn receive_of(cells: &RowCells) -> Message
    requires { HasValues (order_of cells.now) (cells_of cells.now) Kind.Receive }
    ensures { result ≡ message_by (order_of cells.now) (cells_of cells.now) Kind.Receive }
{
    Message::Receive {
        day: day_at(cells, Column::Day),
        thing: thing_at(cells, Column::Thing),
        loan: loan_at(cells),
        place: place_at(cells, Column::Place),
    }
}

fn sign_off_of(alloc: Global, cells: &RowCells) -> Result<Message, NoMemory>
    requires { HasValues (order_of cells.now) (cells_of cells.now) Kind.SignOff }
    ensures { IfOk result
        (λ message. message ≡ message_by (order_of cells.now) (cells_of cells.now) Kind.SignOff) }
{
    let name = name_at(alloc, cells)?;
    Ok(Message::SignOff { name })
}

fn extend_of(cells: &RowCells) -> Message
    requires { HasValues (order_of cells.now) (cells_of cells.now) Kind.Extend }
    ensures { result ≡ message_by (order_of cells.now) (cells_of cells.now) Kind.Extend }
{
    Message::Extend {
        last: day_at(cells, Column::Last),
        loan: loan_at(cells),
    }
}

fn thing_at(cells: &RowCells, column: Column) -> ThingCode
    requires { thing_cell_fault (cells_of cells.now column) ≡ None }
    ensures { result ≡ cells_of cells.now column }
{
    match ThingCode::parse(cells.text(column).as_bytes()) {
        Ok(code) => code,
        Err(_) => unreachable!(),
    }
}

fn place_at(cells: &RowCells, column: Column) -> PlaceCode
    requires { place_cell_fault (cells_of cells.now column) ≡ None }
    ensures { result ≡ cells_of cells.now column }
{
    match PlaceCode::parse(cells.text(column).as_bytes()) {
        Ok(code) => code,
        Err(_) => unreachable!(),
    }
}

fn loan_at(cells: &RowCells) -> LoanCode
    requires { loan_cell_fault (cells_of cells.now Column.Loan) ≡ None }
    ensures { result ≡ cells_of cells.now Column.Loan }
{
    match LoanCode::parse(cells.text(Column::Loan).as_bytes()) {
        Ok(code) => code,
        Err(_) => unreachable!(),
    }
}

fn day_at(cells: &RowCells, column: Column) -> Day
    requires { day_cell_fault (order_of cells.now) (cells_of cells.now column) ≡ None }
    ensures { result ≡ day_at (order_of cells.now) (cells_of cells.now) column }
{
    match day_of(cells.options.dates, cells.text(column).as_bytes()) {
        Ok(day) => day,
        Err(_) => unreachable!(),
    }
}

fn name_at(alloc: Global, cells: &RowCells) -> Result<Name, NoMemory>
    requires right { name_fault (cells_of cells.now Column.By) ≡ None }
    requires some { 0 < length (cells_of cells.now Column.By) }
    ensures { IfOk result (λ name. name ≡ cells_of cells.now Column.By) }
{
    name_of(alloc, cells.text(Column::By))
}

fn name_of(alloc: Global, text: &str) -> Result<Name, NoMemory>
    requires right { name_fault text.now ≡ None }
    requires some { 0 < length text.now }
    ensures { IfOk result (λ name. name ≡ text.now) }
{
    match Name::new(alloc, text.as_bytes()) {
        Ok(name) => Ok(name),
        Err(NameFault::NoMemory) => Err(NoMemory),
        Err(NameFault::Empty) => unreachable!(),
        Err(NameFault::BadShape) => unreachable!(),
    }
}
