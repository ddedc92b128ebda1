mod late;
mod meetings;
mod rows;
mod sums;
