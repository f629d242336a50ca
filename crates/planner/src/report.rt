//! The report: a table with a line for each group, and below it what was done.
use crate::day::{BadLine, Day};
use crate::divide::Division;
use crate::fault::Fault;
use crate::figures::Figures;
use crate::plan::{Batches, Counts, Plan};
use crate::table::Table;

fn yes_or_no(flag: &Option<bool>) -> Option<&'static str> {
    flag.map(|flag| if flag { "yes" } else { "no" })
}

fn print_groups(rt: &HostRuntime, figures: &Figures) -> Result<(), Fault> {
    let Figures {
        all_signed,
        any_signed,
        grams,
        parcels,
        least_floor,
        greatest_floor,
        least_altitude,
        greatest_altitude,
        latest,
    } = figures;
    let seconds = latest.iter().map(|moment| moment.map(|stamp| stamp.second));
    let depots = latest.iter().map(|moment| moment.map(|stamp| stamp.depot));
    let mut table = Table::new(rt.alloc());
    table.add("group", (0..grams.len()).map(Some))?;
    table.add("all signed", all_signed.iter().map(yes_or_no))?;
    table.add("any signed", any_signed.iter().map(yes_or_no))?;
    table.add("grams", grams.iter().copied())?;
    table.add("parcels", parcels.iter().copied())?;
    table.add("least floor", least_floor.iter().copied())?;
    table.add("greatest floor", greatest_floor.iter().copied())?;
    table.add("least altitude", least_altitude.iter().copied())?;
    table.add("greatest altitude", greatest_altitude.iter().copied())?;
    table.add("latest second", seconds)?;
    table.add("at depot", depots)?;
    table.print(rt)
}

// The handle that prints is a parameter of its own throughout, as it is no part of what is reported.
fn print_nulls(rt: &HostRuntime, counts: Counts) -> Result<(), Fault> {
    let Counts {
        signed,
        grams,
        parcels,
        floor,
        altitude,
        moment,
        ..
    } = counts;
    let all = [signed, grams, parcels, floor, altitude, moment]
        .into_iter()
        .fold(0, usize::saturating_add);
    println!(rt;
        "nulls      {all}: signed {signed}, grams {grams}, parcels {parcels}, floor {floor}, altitude {altitude}, second or depot {moment}"
    )?;
    Ok(())
}

fn print_filtered(rt: &HostRuntime, counts: Counts) -> Result<(), Fault> {
    let no = counts.delivered_no;
    let null = counts.delivered_null;
    let all = no.saturating_add(null);
    println!(rt; "filtered   {all}: delivered no {no}, delivered null {null}")?;
    Ok(())
}

fn print_refused(rt: &HostRuntime, batches: Batches<'_>) -> Result<(), Fault> {
    for (k, turn) in batches.turns.iter().enumerate() {
        if let Some(refusal) = turn.refusal {
            let batch = k.saturating_add(1);
            let rows = turn.of(batches.rows);
            let first = rows.first().map_or(0, |row| row.line);
            let last = rows.last().map_or(0, |row| row.line);
            println!(rt; "           batch {batch}, lines {first} to {last}: refusal {refusal}")?;
        }
    }
    Ok(())
}

fn print_bad_lines(rt: &HostRuntime, day: &Day) -> Result<(), Fault> {
    let bad = day.bad_lines.len();
    println!(rt; "bad lines  {bad}")?;
    for BadLine { line, flaw } in day.bad_lines.iter() {
        println!(rt; "           line {line}: {flaw}")?;
    }
    Ok(())
}

/// What was counted. Of a refused batch nothing is.
fn print_counts(rt: &HostRuntime, batches: Batches<'_>, groups: usize) -> Result<(), Fault> {
    let read = batches.rows.len();
    let counts = batches.counts();
    let counted = counts.rows;
    println!(rt; "rows       {counted} counted, of {read} read")?;
    print_nulls(rt, counts)?;
    print_filtered(rt, counts)?;
    println!(rt; "groups     {groups}")?;
    Ok(())
}

fn print_division(rt: &HostRuntime, division: Division) -> Result<(), Fault> {
    let Division {
        first,
        second,
        states,
        groups,
        differs,
    } = division;
    print!(rt; "divided    two parts of {first} and {second} rows, {states} state rows merged: ")?;
    match differs {
        Some(group) => println!(rt; "the figures differ, first in group {group}")?,
        None => println!(rt; "the same figures in {groups} groups")?,
    }
    Ok(())
}

/// A part keeps all its groups to the end, so that a day may have too many of them for it.
fn print_divided(rt: &HostRuntime, divided: Result<Division, Fault>) -> Result<(), Fault> {
    match divided {
        Ok(division) => print_division(rt, division),
        Err(Fault::Refused(refusal)) => {
            println!(rt; "divided    refusal {refusal}")?;
            Ok(())
        }
        Err(fault) => Err(fault),
    }
}

fn print_batches(rt: &HostRuntime, batches: Batches<'_>) -> Result<(), Fault> {
    let turns = batches.turns.len();
    let refused = batches
        .turns
        .iter()
        .filter(|turn| !turn.is_counted())
        .count();
    println!(rt; "batches    {turns}, of which refused {refused}")?;
    print_refused(rt, batches)
}

// The day and the plan stay two: a plan is made of a day, and the figures of both.
pub fn print_report(
    rt: &HostRuntime,
    day: &Day,
    plan: &Plan,
    figures: &Figures,
    divided: Result<Division, Fault>,
) -> Result<(), Fault> {
    let batches = Batches {
        rows: day.rows.as_slice(),
        turns: plan.turns.as_slice(),
    };
    print_groups(rt, figures)?;
    println!(rt; "")?;
    print_counts(rt, batches, figures.grams.len())?;
    print_divided(rt, divided)?;
    print_batches(rt, batches)?;
    print_bad_lines(rt, day)
}
