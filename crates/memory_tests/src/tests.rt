mod registry;
mod rows;
