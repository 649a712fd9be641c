mod loopback;
mod peers;
mod rig;
mod rows;
mod scripts;
mod talks;
