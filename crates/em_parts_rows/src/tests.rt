mod generator;
mod orders;
mod queues;
