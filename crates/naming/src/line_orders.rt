//! Races for the order of lines, told in one line for each time.
ghost use Rattle.std.specs.Prelude.{◌≡◌, ◌++◌, IfOk, OnOk, map, option_map};
ghost use Rattle.verdict.specs.OrderLines.{plain_printer};
ghost use Rattle.std.specs.List.{list_any};
ghost use Rattle.naming.specs.LineOrders.{beginning_of, each_once, is_number, is_of_time, numbers_at, of_time, order_line, orders_text, printer_of, printers_at, with_either, with_one};

use locations::ProcessLocation;
use std::alloc::{AllocError, Global};
use verdict::{LineOrderDescription, PrinterDescription, push_line_order};

/// A race for the order of lines, as it is told: at which time, the numbers of its two processes, and the number of the journal of
/// the run in which they come the other way round, where that is known.
#[derive(Clone, Copy)]
pub(crate) struct LineOrder {
    pub(crate) time: u64,
    pub(crate) first: u32,
    pub(crate) second: u32,
    pub(crate) journal: Option<usize>,
}

/// Puts one line for each time at which some of the races are behind a text.
pub(crate) fn push_orders(
    alloc: Global,
    text: &mut Vec<u8>,
    processes: &[ProcessLocation],
    prefix: Option<&str>,
    orders: &[LineOrder],
) -> Result<(), AllocError>
    ensures { OnOk result (text.new.items ≡ text.old.items ++ orders_text processes.now (option_map (λ path. path.now) prefix.entry) orders.now) }
{
    let firsts = first_orders(alloc, orders)?;
    for place in 0..firsts.len() {
        push_order(alloc, text, processes, prefix, orders, firsts[place])?;
    }
    Ok(())
}

/// Puts the line on the time of one of the races behind a text, with the journal of that one.
fn push_order(
    alloc: Global,
    text: &mut Vec<u8>,
    processes: &[ProcessLocation],
    prefix: Option<&str>,
    orders: &[LineOrder],
    order: LineOrder,
) -> Result<(), AllocError>
    ensures { OnOk result (text.new.items ≡ text.old.items ++ order_line processes.now (option_map (λ path. path.now) prefix.entry) orders.now order) }
{
    let printers = printers_at(alloc, processes, orders, order.time)?;
    let told = LineOrderDescription {
        time: order.time,
        printers: printers.as_slice(),
        prefix,
        journal: order.journal,
    };
    push_line_order(text, &told)
}

/// Whether one of some races is at a time.
fn has_time(orders: &[LineOrder], time: u64) -> bool
    ensures { result ≡ list_any (is_of_time time) orders.now }
{
    orders.iter().any(|order| order.time == time)
}

/// Puts a race behind others, unless one of its time is there.
fn add_first(firsts: &mut Vec<LineOrder>, order: LineOrder) -> Result<(), AllocError>
    ensures { OnOk result (firsts.new.items ≡ with_one of_time firsts.old.items order) }
{
    if has_time(firsts.as_slice(), order.time) {
        return Ok(());
    }
    firsts.push(order)?;
    Ok(())
}

/// The first race of each time.
fn first_orders(alloc: Global, orders: &[LineOrder]) -> Result<Vec<LineOrder>, AllocError>
    ensures { IfOk result (λ firsts. firsts.items ≡ each_once of_time orders.now) }
{
    let mut firsts = Vec::new(alloc);
    for place in 0..orders.len() {
        add_first(&mut firsts, orders[place])?;
    }
    Ok(firsts)
}

/// Whether a number is among others.
fn has_number(numbers: &[u32], number: u32) -> bool
    ensures { result ≡ list_any (is_number number) numbers.now }
{
    numbers.iter().any(|known| *known == number)
}

/// Puts a number behind others, unless it is there.
fn add_number(numbers: &mut Vec<u32>, number: u32) -> Result<(), AllocError>
    ensures { OnOk result (numbers.new.items ≡ with_one is_number numbers.old.items number) }
{
    if has_number(numbers.as_slice(), number) {
        return Ok(());
    }
    numbers.push(number)?;
    Ok(())
}

/// Puts the numbers of a race's two processes behind others, unless they are there.
fn add_both(numbers: &mut Vec<u32>, order: LineOrder) -> Result<(), AllocError>
    ensures { OnOk result (numbers.new.items ≡ with_one is_number (with_one is_number numbers.old.items order.first) order.second) }
{
    add_number(numbers, order.first)?;
    add_number(numbers, order.second)
}

/// Puts the numbers of a race's two processes behind others, if it is at a time and unless they are there.
fn add_at(numbers: &mut Vec<u32>, order: LineOrder, time: u64) -> Result<(), AllocError>
    ensures { OnOk result (numbers.new.items ≡ with_either numbers.old.items order time) }
{
    if order.time == time {
        add_both(numbers, order)
    } else {
        Ok(())
    }
}

/// The numbers of the processes of the races at a time, each once.
fn numbers_at(alloc: Global, orders: &[LineOrder], time: u64) -> Result<Vec<u32>, AllocError>
    ensures { IfOk result (λ numbers. numbers.items ≡ numbers_at time orders.now) }
{
    let mut numbers = Vec::new(alloc);
    for place in 0..orders.len() {
        add_at(&mut numbers, orders[place], time)?;
    }
    Ok(numbers)
}

/// Where the process with a number begins, in words, if that is known.
fn beginning_of(processes: &[ProcessLocation], number: u32) -> Option<&str>
    ensures { option_map (λ words. words.now) result ≡ beginning_of processes.entry.now number }
{
    match processes.get(number as usize) {
        Some(process) => Some(process.at.as_str()),
        None => None,
    }
}

/// A process, as it is told.
pub(crate) fn printer_of(processes: &[ProcessLocation], number: u32) -> PrinterDescription<'_>
    ensures { plain_printer result ≡ printer_of processes.entry.now number }
{
    PrinterDescription {
        number,
        at: beginning_of(processes, number),
    }
}

/// Processes with these numbers, as they are told.
pub(crate) fn printers_of<'p>(
    alloc: Global,
    processes: &'p [ProcessLocation],
    numbers: &[u32],
) -> Result<Vec<PrinterDescription<'p>>, AllocError>
    ensures { IfOk result (λ printers. map plain_printer printers.items ≡ map (printer_of processes.entry.now) numbers.now) }
{
    let mut printers = Vec::new(alloc);
    for place in 0..numbers.len() {
        printers.push(printer_of(processes, numbers[place]))?;
    }
    Ok(printers)
}

/// The processes of the races at a time, as they are told.
fn printers_at<'p>(
    alloc: Global,
    processes: &'p [ProcessLocation],
    orders: &[LineOrder],
    time: u64,
) -> Result<Vec<PrinterDescription<'p>>, AllocError>
    ensures { IfOk result (λ printers. map plain_printer printers.items ≡ printers_at processes.entry.now time orders.now) }
{
    let numbers = numbers_at(alloc, orders, time)?;
    let printers = printers_of(alloc, processes, numbers.as_slice())?;
    Ok(printers)
}
