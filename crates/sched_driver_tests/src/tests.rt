mod driver;
mod step;
mod values;
