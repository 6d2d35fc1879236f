//! The items of a case.

use crate::fault::Fault;
use fr_net::Net;
use serde_json::Value;
use std::alloc::Global;

/// The items of a list.
pub fn items(value: &Value) -> Result<&[Value], Fault> {
    match value.as_array() {
        Some(items) => Ok(items.as_slice()),
        None => Err(Fault::NoCase),
    }
}

pub fn word(value: &Value) -> Result<&str, Fault> {
    match value.as_str() {
        Some(word) => Ok(word),
        None => Err(Fault::NoCase),
    }
}

/// What a table has for a word.
pub fn named<T: Copy>(word: &str, table: &[(&str, T)]) -> Result<T, Fault> {
    for (name, meant) in table {
        if *name == word {
            return Ok(*meant);
        }
    }
    Err(Fault::NoCase)
}

pub fn number(value: &Value) -> Result<u64, Fault> {
    match value.as_u64() {
        Some(number) => Ok(number),
        None => Err(Fault::NoCase),
    }
}

/// A number of 32 bits, as for nodes and workers.
pub fn small_number(value: &Value) -> Result<u32, Fault> {
    match u32::try_from(number(value)?) {
        Ok(small) => Ok(small),
        Err(_) => Err(Fault::NoCase),
    }
}

fn pair(value: &Value) -> Result<(u32, u32), Fault> {
    match items(value)? {
        [first, second] => Ok((small_number(first)?, small_number(second)?)),
        _ => Err(Fault::NoCase),
    }
}

fn pairs(alloc: Global, value: &Value) -> Result<Vec<(u32, u32)>, Fault> {
    let mut pairs = Vec::new(alloc);
    for item in items(value)? {
        pairs.push(pair(item)?)?;
    }
    Ok(pairs)
}

/// The network with a number of nodes and a list of links.
pub fn network(alloc: Global, nodes: &Value, links: &Value) -> Result<Net, Fault> {
    let nodes = small_number(nodes)?;
    let links = pairs(alloc, links)?;
    Ok(Net::new(alloc, nodes, &links)?)
}
