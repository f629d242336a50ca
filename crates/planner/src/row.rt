//! A line of the file as a row: nine fields, each of them checked.
use operations::operation::Stamp;
use std::num::{IntErrorKind, ParseIntError};
use std::str::FromStr;
use thiserror::Error;

/// The first line of every file.
pub const HEADER: &str = "group,delivered,signed,grams,parcels,floor,altitude,second,depot";

const FIELDS: usize = 9;

/// What a line says; an empty field is a null.
#[derive(Clone, Copy)]
pub struct Row {
    /// The line's number in the file.
    pub line: usize,
    /// The group's opening number.
    pub group: usize,
    pub delivered: Option<bool>,
    pub signed: Option<bool>,
    pub grams: Option<i64>,
    pub parcels: Option<u64>,
    pub floor: Option<i32>,
    pub altitude: Option<i64>,
    pub moment: Option<Stamp>,
}

/// Why a line is no row.
#[derive(Clone, Copy, Debug, Error)]
pub enum Flaw {
    #[error("the number of fields is {0} and not 9")]
    FieldCount(usize),
    #[error("group is empty")]
    NoGroup,
    #[error("{0} is neither yes nor no nor empty")]
    NoTick(&'static str),
    #[error("{0} is too large")]
    TooLarge(&'static str),
    #[error("{0} is too small")]
    TooSmall(&'static str),
    #[error("{0} is not a whole number")]
    NoNumber(&'static str),
}

fn number<F: FromStr<Err = ParseIntError> + Drop>(
    name: &'static str,
    text: &str,
) -> Result<Option<F>, Flaw> {
    if text.is_empty() {
        return Ok(None);
    }
    text.parse::<F>().map(Some).map_err(|e| match e.kind() {
        IntErrorKind::PosOverflow => Flaw::TooLarge(name),
        IntErrorKind::NegOverflow => Flaw::TooSmall(name),
        _ => Flaw::NoNumber(name),
    })
}

fn tick(name: &'static str, text: &str) -> Result<Option<bool>, Flaw> {
    match text {
        "" => Ok(None),
        "yes" => Ok(Some(true)),
        "no" => Ok(Some(false)),
        _ => Err(Flaw::NoTick(name)),
    }
}

impl Row {
    /// Reads a line. Spaces around a field do not count.
    // The fields are counted before any of them is kept: a line may have more of them than there is memory for.
    pub fn read(line: usize, text: &str) -> Result<Row, Flaw> {
        let count = text.split(',').count();
        if count != FIELDS {
            return Err(Flaw::FieldCount(count));
        }
        let mut fields = [""; FIELDS];
        for (k, field) in text.split(',').enumerate() {
            if k < FIELDS {
                fields[k] = field.trim();
            }
        }
        let [
            group,
            delivered,
            signed,
            grams,
            parcels,
            floor,
            altitude,
            second,
            depot,
        ] = fields;
        let group = number("group", group)?;
        let delivered = tick("delivered", delivered)?;
        let signed = tick("signed", signed)?;
        let grams = number("grams", grams)?;
        let parcels = number("parcels", parcels)?;
        let floor = number("floor", floor)?;
        let altitude = number("altitude", altitude)?;
        let second = number("second", second)?;
        let depot = number("depot", depot)?;
        Ok(Row {
            line,
            group: group.ok_or(Flaw::NoGroup)?,
            delivered,
            signed,
            grams,
            parcels,
            floor,
            altitude,
            moment: second
                .zip(depot)
                .map(|(second, depot)| Stamp { second, depot }),
        })
    }
}
