mod files;
mod peers;
mod streams;
mod threads;
