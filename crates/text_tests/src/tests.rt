mod condition;
mod events;
mod lines;
mod matching;
mod parts;
mod payloads;
mod processor;
mod trees;
