mod changes;
mod globs;
mod identities;
mod parts;
mod reports;
mod scans;
mod settings;
mod usage;
