//! What is printed, beside texts that were written by hand: of steps, reasons and histories, also such as no step file brings about, and by commands
//! that end in each status.
#![tactic(auto)]

#[cfg(test)]
mod commands;
#[cfg(test)]
mod reasons;
#[cfg(test)]
mod replies;
#[cfg(test)]
mod reports;
#[cfg(test)]
mod steps;
