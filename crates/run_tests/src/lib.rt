//! Tests of the crates that make the run: of the board of payment words, a worker's visits, and the
//! rounds of all workers. They stand apart, so that those crates are proved once.
//!
//! | crate | modules |
//! |---|---|
//! | `pay_words` | `asks`: what bells tell |
//! | `bank_worker` | `workers`: visits and rounds of one worker; `asks`: a seat given back |
//! | `settle` | `asks`: which bells call two workers |
//! | | `counts`: what a run takes |
//! | | `meetings`: whether its workers work at once |
//! | | `ordered`: what one worker does while another is held up |
//!
//! The tests share runs (`runs`) on networks (`nets`), boards on which nothing is paid (`boards`),
//! and gates that count visits or hold them up (`gates`).
#![tactic(auto)]

#[cfg(test)]
mod asks;
#[cfg(test)]
mod boards;
#[cfg(test)]
mod counts;
#[cfg(test)]
mod gates;
#[cfg(test)]
mod meetings;
#[cfg(test)]
mod nets;
#[cfg(test)]
mod ordered;
#[cfg(test)]
mod runs;
#[cfg(test)]
mod workers;
