//! Tests of runs over memory and over devices that fail, and of what sia_graph answers. What is expected was worked out by
//! hand from the definitions.
mod devices;
mod faults;
mod forms;
mod graph;
mod line;
mod options;
mod passing_on;
mod rows;
