mod desk;
mod queue;
