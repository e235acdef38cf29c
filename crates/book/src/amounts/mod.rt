// The amounts of an hour, of a unit and of a day, from the rows of a book that was checked.
pub mod days;
pub mod failures;
pub mod guarantees;
pub mod hours;
pub mod places;
pub mod prices;
pub mod units;
pub mod whole_day;
