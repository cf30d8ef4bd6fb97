//! What texts are read as, why they aren't, what is drawn, and what is printed.
mod drawing;
mod printing;
mod reading;
mod refusing;
