// Tests of rounds on small days and on a full one. What they expect is worked out by hand from docs/.
// Words are written in hexadecimal, as docs/FORMATS.md has them.
#![tactic(auto)]

#[cfg(test)]
mod applying;
#[cfg(test)]
mod days;
#[cfg(test)]
mod first_fault;
#[cfg(test)]
mod full_round;
#[cfg(test)]
mod idle;
#[cfg(test)]
mod orders;
#[cfg(test)]
mod refused_slips;
#[cfg(test)]
mod settling;
