mod faults;
mod quiet;
mod refusals;
mod reports;
mod views;
