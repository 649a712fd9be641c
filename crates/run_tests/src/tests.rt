mod changes;
mod harvesters;
mod one_lane;
mod reopening;
mod scans;
mod threads;
mod workers;
