// The command line over a world in memory: program files and the environment.

mod environment;
mod files;
