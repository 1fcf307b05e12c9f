mod limits;
mod queues;
