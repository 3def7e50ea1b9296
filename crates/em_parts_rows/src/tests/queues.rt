mod life;
mod model;
mod random;
