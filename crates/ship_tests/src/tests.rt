mod faults;
mod lines;
mod many_files;
mod refusals;
mod restarts;
mod rows;
mod wanted;
mod world;
