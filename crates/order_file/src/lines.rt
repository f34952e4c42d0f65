// The lines of values: cut into fields, and read as instructions.
ghost use Rattle.std.specs.Prelude.{◌≡◌, ◌<◌};
ghost use Rattle.order_file.specs.Lines.{field_count, SplitAt, NextField, LastField, Rows, values, TermsTaken, WordAlone, Taken, Accepts, Faults};
ghost use Rattle.order_file.specs.declared.instructions.Verb.TheVariants.{Enter as Enter', Replace as Replace', Cut as Cut', Cancel as Cancel', Reply as Reply', Quote as Quote'};

use crate::faults::Fault;
use crate::fields::{Part, Place};
use crate::instructions::{Instruction, Verb};
use market::types::{Quotation, Terms};

// The fields of one line, by their names.
#[derive(Clone, Copy)]
pub struct Row<'a> {
    call: Part<'a>,
    side: Part<'a>,
    price: Part<'a>,
    size: Part<'a>,
    show: Part<'a>,
    kind: Part<'a>,
    user: Part<'a>,
    number: Part<'a>,
    venue: Part<'a>,
}

// What is left of a line, and where its next field stands.
#[derive(Drop)]
struct Fields<'a> {
    rest: &'a [u8],
    place: Place,
}

// What stands before the first such byte, and what after it.
pub fn split_once(bytes: &[u8], byte: u8) -> Option<(&[u8], &[u8])>
    ensures { SplitAt byte bytes.now result }
{
    let i = bytes.iter().position(|b| *b == byte)?;
    Some((&bytes[..i], &bytes[i + 1..]))
}

impl<'a> Fields<'a> {
    // The next field, which a space ends.
    fn next(&mut self) -> Result<Part<'a>, Fault>
        requires { self.old.place.field < field_count }
        ensures { NextField self.old result self.new }
    {
        let place = self.place;
        let (bytes, rest) = split_once(self.rest, b' ').ok_or(Fault::of_line(place.line))?;
        self.rest = rest;
        self.place.field += 1;
        Ok(Part { bytes, place })
    }

    // The last field, which the line ends.
    fn last(self) -> Result<Part<'a>, Fault>
        ensures { LastField self.entry result }
    {
        let Fields { rest, place } = self;
        match split_once(rest, b' ') {
            Some(_) => Err(Fault::of_line(place.line)),
            None => Ok(Part { bytes: rest, place }),
        }
    }
}

fn cut_row(bytes: &[u8], line: u32) -> Result<Row<'_>, Fault>
    ensures { Rows bytes.now line result }
{
    let mut fields = Fields {
        rest: bytes,
        place: Place { line, field: 1 },
    };
    Ok(Row {
        call: fields.next()?,
        side: fields.next()?,
        price: fields.next()?,
        size: fields.next()?,
        show: fields.next()?,
        kind: fields.next()?,
        user: fields.next()?,
        number: fields.next()?,
        venue: fields.last()?,
    })
}

// The terms of an order, which enter and replace give alike.
fn terms(row: &Row<'_>) -> Result<Terms, Fault>
    ensures { TermsTaken row.now result }
{
    let price = row.price.number()?;
    let size = row.size.number()?;
    let show = row.show.number()?;
    let kind = row.kind.word()?;
    let user = row.user.number()?;
    Ok(Terms {
        price,
        size,
        show,
        kind,
        user,
    })
}

fn enter(row: &Row<'_>) -> Result<Instruction, Fault>
    ensures { Taken Enter' (values row.now) result }
{
    let side = row.side.word()?;
    let terms = terms(row)?;
    row.number.blank()?;
    row.venue.blank()?;
    Ok(Instruction::Enter(side, terms))
}

fn replace(row: &Row<'_>) -> Result<Instruction, Fault>
    ensures { Taken Replace' (values row.now) result }
{
    row.side.blank()?;
    let terms = terms(row)?;
    let number = row.number.number()?;
    row.venue.blank()?;
    Ok(Instruction::Replace(terms, number))
}

fn cut(row: &Row<'_>) -> Result<Instruction, Fault>
    ensures { Taken Cut' (values row.now) result }
{
    row.side.blank()?;
    row.price.blank()?;
    let size = row.size.number()?;
    row.show.blank()?;
    row.kind.blank()?;
    let user = row.user.number()?;
    let number = row.number.number()?;
    row.venue.blank()?;
    Ok(Instruction::Cut { size, user, number })
}

fn cancel(row: &Row<'_>) -> Result<Instruction, Fault>
    ensures { Taken Cancel' (values row.now) result }
{
    row.side.blank()?;
    row.price.blank()?;
    row.size.blank()?;
    row.show.blank()?;
    row.kind.blank()?;
    let user = row.user.number()?;
    let number = row.number.number()?;
    row.venue.blank()?;
    Ok(Instruction::Cancel { user, number })
}

fn reply(row: &Row<'_>) -> Result<Instruction, Fault>
    ensures { Taken Reply' (values row.now) result }
{
    row.side.blank()?;
    row.price.blank()?;
    let size = row.size.number()?;
    row.show.blank()?;
    row.kind.blank()?;
    row.user.blank()?;
    let number = row.number.number()?;
    row.venue.blank()?;
    Ok(Instruction::Reply { size, number })
}

fn quote(row: &Row<'_>) -> Result<Instruction, Fault>
    ensures { Taken Quote' (values row.now) result }
{
    let side = row.side.word()?;
    let price = row.price.number()?;
    let size = row.size.number()?;
    row.show.blank()?;
    row.kind.blank()?;
    row.user.blank()?;
    row.number.blank()?;
    let venue = row.venue.number()?;
    Ok(Instruction::Quote(side, Quotation { venue, price, size }))
}

// That a line has a word and no values.
fn word_alone(row: &Row<'_>) -> Result<(), Fault>
    ensures { WordAlone row.now result }
{
    row.side.blank()?;
    row.price.blank()?;
    row.size.blank()?;
    row.show.blank()?;
    row.kind.blank()?;
    row.user.blank()?;
    row.number.blank()?;
    row.venue.blank()?;
    Ok(())
}

fn by_verb(verb: Verb, row: &Row<'_>) -> Result<Instruction, Fault>
    ensures { Taken verb (values row.now) result }
{
    match verb {
        Verb::Enter => enter(row),
        Verb::Replace => replace(row),
        Verb::Cut => cut(row),
        Verb::Cancel => cancel(row),
        Verb::Reply => reply(row),
        Verb::Quote => quote(row),
        Verb::Close => word_alone(row).map(|()| Instruction::Close),
        Verb::Expire => word_alone(row).map(|()| Instruction::Expire),
    }
}

// The instruction that line number `line` writes, given without its end.
pub fn read_line(bytes: &[u8], line: u32) -> Result<Instruction, Fault>
    ensures accepts { Accepts bytes.now result }
    ensures fault { Faults bytes.now line result }
{
    let row = cut_row(bytes, line)?;
    let verb = row.call.word()?;
    by_verb(verb, &row)
}
