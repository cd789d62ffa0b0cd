// Sheets: formulas that tell the classes of places apart.
#![tactic(auto)]

mod blocks;
mod cut;
mod does;
mod draw;
mod lines;
mod tells;
mod truths;
