//! Tests of the texts of `audit` over many states, beside plain forms of these texts. The plain forms look at
//! each word of the tables and at each page of the regions, one by one.
#![tactic(auto)]

#[cfg(test)]
mod apart;
#[cfg(test)]
mod calls;
#[cfg(test)]
mod compared;
#[cfg(test)]
mod draw;
#[cfg(test)]
mod drawn;
#[cfg(test)]
mod fault;
#[cfg(test)]
mod house;
#[cfg(test)]
mod plain;
#[cfg(test)]
mod same;
#[cfg(test)]
mod shapes;
#[cfg(test)]
mod states;
#[cfg(test)]
mod table_words;
#[cfg(test)]
mod two;
